//! The calls by which sizes and units are read from a format.

ghost use Rattle.std.specs.Prelude.{ℕ, Bool, List, None, string_bytes, IfOk, OnOk, MatchBool};
ghost use Rattle.std.specs.Result.{result_map_both};
ghost use Rattle.serde.specs.Event.{text, nothing, seq_begins, seq_ends};
ghost use Rattle.serde.specs.Steps.{Gives, Stays};
ghost use Rattle.serde.specs.declared.deserializer.Deserializer.{Deserializer};
ghost use Rattle.byte_unit_serde.specs.Returns.{Returns};

use serde::{Deserializer, Format};
use std::alloc::Global;

/// The calls that read sizes and units from a format. Implemented for each [`Format`].
///
/// The contracts of `serde` say nothing of a call that returns an error. Here a relation says what each call returned,
/// and what reads over any `Source` can return an error only if the relation has it: the error of a call of the format,
/// or the one that the format makes for a rejected string or a failed allocation.
pub trait Source: Format {
    // Each holds of the deserializer before a call, what the call returned, and the deserializer after it.
    ghost string_returns: { Returns (Deserializer Self Self.Error Self.Mark) (List ℕ) Self.Error };

    ghost none_returns: { Returns (Deserializer Self Self.Error Self.Mark) Bool Self.Error };

    ghost begin_returns: { Returns (Deserializer Self Self.Error Self.Mark) Unit Self.Error };

    ghost next_returns: { Returns (Deserializer Self Self.Error Self.Mark) Bool Self.Error };

    // The deserializer makes this error of a message.
    ghost rejects: { Deserializer Self Self.Error Self.Mark → List ℕ → Self.Error → Type 0 };
    // The deserializer makes this error for a failed allocation.
    ghost runs_out: { Deserializer Self Self.Error Self.Mark → Self.Error → Type 0 };

    /// Reads a string.
    fn read_string(
        alloc: Global,
        from: &mut Deserializer<'_, '_, Self>,
    ) -> Result<String, Self::Error>
        ensures given { IfOk result
            (λ string. Gives Self.gives from.old (text (string_bytes string)) from.new) }
        ensures returned { string_returns from.old
            (result_map_both string_bytes (λ error. error) result)
            from.new };

    /// Reads nothing if it comes next, and returns whether it did.
    fn read_none(from: &mut Deserializer<'_, '_, Self>) -> Result<bool, Self::Error>
        ensures given { IfOk result (λ is_none. MatchBool is_none
            (Gives Self.gives from.old nothing from.new) (Stays Self.stays from.old from.new)) }
        ensures returned { none_returns from.old result from.new };

    /// Reads the beginning of a sequence.
    fn begin_list(from: &mut Deserializer<'_, '_, Self>) -> Result<(), Self::Error>
        ensures given { OnOk result (Gives Self.gives from.old (seq_begins None) from.new) }
        ensures returned { begin_returns from.old result from.new };

    /// Returns whether an item comes next, and reads the end of the sequence if none does.
    fn next_in_list(from: &mut Deserializer<'_, '_, Self>) -> Result<bool, Self::Error>
        ensures given { IfOk result (λ is_item. MatchBool is_item
            (Stays Self.stays from.old from.new) (Gives Self.gives from.old seq_ends from.new)) }
        ensures returned { next_returns from.old result from.new };

    /// Returns the error of a string that is rejected with this message.
    fn rejection(from: &Deserializer<'_, '_, Self>, message: &str) -> Self::Error
        ensures { rejects from.now message.now result };

    /// Returns the error of a failed allocation.
    fn out_of_memory(from: &Deserializer<'_, '_, Self>) -> Self::Error
        ensures { runs_out from.now result };
}

impl<F: Format> Source for F {
    ghost string_returns = { λ _ _ _. Unit };

    ghost none_returns = { λ _ _ _. Unit };

    ghost begin_returns = { λ _ _ _. Unit };

    ghost next_returns = { λ _ _ _. Unit };

    ghost rejects = { λ _ _ _. Unit };

    ghost runs_out = { λ _ _. Unit };

    fn read_string(alloc: Global, from: &mut Deserializer<'_, '_, F>) -> Result<String, F::Error> {
        from.string(alloc)
    }

    fn read_none(from: &mut Deserializer<'_, '_, F>) -> Result<bool, F::Error> {
        from.take_none()
    }

    fn begin_list(from: &mut Deserializer<'_, '_, F>) -> Result<(), F::Error> {
        from.begin_seq()
    }

    fn next_in_list(from: &mut Deserializer<'_, '_, F>) -> Result<bool, F::Error> {
        from.next_item()
    }

    fn rejection(from: &Deserializer<'_, '_, F>, message: &str) -> F::Error {
        from.custom(message)
    }

    fn out_of_memory(from: &Deserializer<'_, '_, F>) -> F::Error {
        from.no_memory()
    }
}
