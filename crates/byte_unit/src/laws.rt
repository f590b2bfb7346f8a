//! Laws over the definitions. Each is a public function whose contract is the law. Most return nothing;
//! `byte_constant`, `byte_bounds`, `bit_constant` and `bit_bounds` return the values that their laws are about.

pub use byte_unit_base::laws::binary::{
    binary_readings_are_those_with_i, each_text_has_one_with_i,
};
pub use byte_unit_base::laws::readers::{
    names_spell_their_units, parsed_numbers_are_represented, parsed_sizes_are_accepted,
    parsed_units_are_spelled, size_fronts_are_beginnings, size_texts_have_one_answer,
    unit_fronts_are_beginnings, unit_texts_have_one_answer,
};
pub use byte_unit_base::laws::sizes::{
    each_number_has_one_least_size, each_text_is_one_of_three,
    greater_numbers_give_no_smaller_sizes, texts_are_accepted_or_refused,
};
pub use byte_unit_base::laws::versions::current_extends_old;
pub use byte_unit_base::laws::words::words_change_no_accepted_text;
pub use byte_unit_bit::laws::{bit_bounds, bit_constant};
pub use byte_unit_byte::laws::{byte_bounds, byte_constant};
pub use byte_unit_choice::laws::{
    choices_are_one, choices_at_no_places_are_whole, each_size_has_a_choice_or_none,
    more_places_give_no_smaller_unit, number_times_unit_is_size, sizes_are_exact_by_powers,
};
pub use byte_unit_format::laws::{
    adjusted_string_reads_back, binary_string_reads_back, expansions_end, layout_fills_width,
    named_specs_set_no_other_option, old_meanings_stay, places_of_size, plain_form_fills_width,
    plain_form_reads_back, shown_adjusted_size_is_plain_form, shown_size_is_plain_form,
    size_form_reads_back, size_has_one_adjusted_form, size_has_one_form, size_string_reads_back,
};
pub use byte_unit_math::laws::{
    exact_by_powers, expansions_are_found_by_division, greatest_count_stays, numerals_are_exact,
    places_by_powers,
};
