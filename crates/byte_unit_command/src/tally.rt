//! What a run counts.

ghost use Rattle.std.specs.Prelude.{◌≡◌, ◌∷◌, [], Some, None};
ghost use Rattle.byte_unit_command.specs.Sums.{Counts, is_beyond};
ghost use Rattle.byte_unit_command.specs.declared.options.Options.{Options};

use crate::options::Options;
use byte_unit_base::size::SIZE_LIMIT;

/// What was counted in the fields that were converted.
#[derive(Debug, Clone, Copy, PartialEq, Eq)]
pub struct Tally {
    /// The sum of the sizes, or 10^30 if it reaches that.
    pub total: u128,
    /// Whether a size is above the maximum or below the minimum.
    pub beyond: bool,
    /// Whether a field was rejected.
    pub rejected: bool,
}

impl Tally {
    /// The tally of no field.
    pub const NONE: Tally = Tally {
        total: 0,
        beyond: false,
        rejected: false,
    };

    /// Counts a size. Returns `true` if it is above the maximum or below the minimum.
    pub(crate) fn add(&mut self, options: &Options, size: u128) -> bool
        ensures counts { Counts options.now self.old (Some size ∷ []) self.new }
        ensures beyond { result ≡ is_beyond options.now size }
    {
        self.total = self.total.saturating_add(size).min(SIZE_LIMIT);
        let beyond = options.max.is_some_and(|most| most < size)
            || options.min.is_some_and(|least| size < least);
        if beyond {
            self.beyond = true;
        }
        beyond
    }

    /// Counts a field that is not a size.
    pub(crate) fn reject(&mut self)
        ensures { (options : Options) → Counts options self.old (None ∷ []) self.new }
    {
        self.rejected = true;
    }
}
