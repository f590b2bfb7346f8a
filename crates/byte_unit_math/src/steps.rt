//! A step counter, of which contracts say by how much a call raises it.
ghost use Rattle.std.specs.Prelude.{◌≡◌, ℕ};
ghost use Rattle.byte_unit_math.specs.Steps.{saturating_add};

use std::marker::Model;

/// A step count. It starts at 0, never falls, and saturates at `u64::MAX`.
///
/// The steps are those of a method that a call names, such as trial division. Most calls compute their number and work
/// in another way, so a count bounds no running time.
///
/// # Examples
/// ```rust
/// let mut steps = Steps::new();
/// assert_eq!(rt; two_five(1_000, &mut steps), (3, 3));
/// assert_eq!(rt; steps.count(), 8);
/// ```
#[derive(Clone, Copy, Debug)]
pub struct Steps {
    /// The number of steps so far.
    count: u64,
}

impl Model for Steps {
    ghost use Rattle.std.specs.Prelude.{ℕ};

    ghost Value = { ℕ };

    ghost view = { λ s. s.count };

    ghost inverse = { λ n. record { count = n } };
}

impl Steps {
    /// Creates a step count of 0.
    ///
    /// # Examples
    /// ```rust
    /// assert_eq!(rt; Steps::new().count(), 0);
    /// ```
    pub fn new() -> Steps
        ensures { result ≡ 0 }
    {
        Steps { count: 0 }
    }

    /// Returns the number of steps counted so far.
    ///
    /// # Examples
    /// ```rust
    /// let mut steps = Steps::new();
    /// two_five(7, &mut steps);
    /// assert_eq!(rt; steps.count(), 2);
    /// ```
    pub fn count(&self) -> u64
        ensures { result ≡ self.now }
    {
        self.count
    }

    /// Adds a number of steps, saturating.
    pub(crate) fn advance_by(&mut self, steps: u32)
        ensures { self.new ≡ saturating_add self.old steps }
    {
        self.count = self.count.saturating_add(u64::from(steps));
    }
}
