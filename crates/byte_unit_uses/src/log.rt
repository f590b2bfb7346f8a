//! A log that is rotated by size: its limit is an invariant.

ghost use Rattle.std.specs.Prelude.{◌≡◌, ◌+◌, ◌-◌, ◌<◌, ◌≤◌};

use byte_unit::Byte;

/// A log that never exceeds its limit. Its size is the limit less what is left of it.
#[derive(Drop)]
pub struct Log {
    limit: Byte,
    left: Byte,
    ghost within: { left ≤ limit },
}

/// The outcome of writing an entry.
#[derive(Debug, Clone, Copy, PartialEq)]
pub enum Written {
    /// The entry was appended.
    Added,
    /// The log was rotated at this size, and the entry is the first of the next log.
    Rotated(Byte),
    /// The entry is larger than the limit, and was dropped.
    TooLarge,
}

impl Log {
    /// Creates an empty log with a limit.
    pub fn new(limit: Byte) -> Log
        ensures limit { result.limit ≡ limit }
        ensures empty { result.left ≡ limit }
    {
        Log { limit, left: limit }
    }

    /// Returns the size of the log.
    pub fn size(&self) -> Byte
        ensures { result + self.now.left ≡ self.now.limit }
    {
        self.limit.subtract(self.left).unwrap()
    }

    /// Writes an entry of this size, and rotates the log first if the entry does not fit.
    pub fn write(&mut self, entry: Byte) -> Written
        ensures limit { self.new.limit ≡ self.old.limit }
        ensures added { entry ≤ self.old.left
            → (result ≡ Written.Added) × (self.new.left + entry ≡ self.old.left) }
        ensures rotated { self.old.left < entry → entry ≤ self.old.limit
            → (result ≡ Written.Rotated (self.old.limit - self.old.left))
            × (self.new.left + entry ≡ self.old.limit) }
        ensures too_large { self.old.limit < entry
            → (result ≡ Written.TooLarge) × (self.new.left ≡ self.old.left) }
    {
        let full = self.size();
        if let Some(left) = self.left.subtract(entry) {
            self.left = left;
            return Written::Added;
        }
        match self.limit.subtract(entry) {
            Some(left) => {
                self.left = left;
                Written::Rotated(full)
            }
            None => Written::TooLarge,
        }
    }
}
