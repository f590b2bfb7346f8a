//! The calls by which sizes and units are written to a format.

ghost use Rattle.std.specs.Prelude.{ℕ, List, Some, OnOk};
ghost use Rattle.serde.specs.Event.{Logs, text, nothing, seq_begins, seq_ends};
ghost use Rattle.byte_unit_serde.specs.Returns.{Returns};

use serde::Serializer;

/// The calls that write sizes and units to a format. Implemented for each [`Serializer`].
///
/// The contracts of `serde` say nothing of a call that returns an error. Here a relation says what each call returned,
/// and what writes to any `Sink` can return an error only if the relation has it: the error of a call of the format.
pub trait Sink: Serializer {
    // Each holds of the argument if there is one, the serializer before a call, what the call returned, and the
    // serializer after it.
    ghost str_returns: { List ℕ → Returns Self Unit Self.Error };

    ghost none_returns: { Returns Self Unit Self.Error };

    ghost begin_returns: { ℕ → Returns Self Unit Self.Error };

    ghost end_returns: { Returns Self Unit Self.Error };

    /// Writes a string.
    fn write_str(&mut self, string: &str) -> Result<(), Self::Error>
        ensures written { OnOk result
            (Logs (Self.written self.old) (Self.written self.new) (text string.now)) }
        ensures returned { str_returns string.now self.old result self.new };

    /// Writes nothing, as for `None`.
    fn write_none(&mut self) -> Result<(), Self::Error>
        ensures written { OnOk result
            (Logs (Self.written self.old) (Self.written self.new) nothing) }
        ensures returned { none_returns self.old result self.new };

    /// Writes the beginning of a sequence of this many items.
    fn begin_list(&mut self, len: usize) -> Result<(), Self::Error>
        ensures written { OnOk result
            (Logs (Self.written self.old) (Self.written self.new) (seq_begins (Some len))) }
        ensures returned { begin_returns len self.old result self.new };

    /// Writes the end of a sequence.
    fn end_list(&mut self) -> Result<(), Self::Error>
        ensures written { OnOk result
            (Logs (Self.written self.old) (Self.written self.new) seq_ends) }
        ensures returned { end_returns self.old result self.new };
}

impl<S: Serializer> Sink for S {
    ghost str_returns = { λ _ _ _ _. Unit };

    ghost none_returns = { λ _ _ _. Unit };

    ghost begin_returns = { λ _ _ _ _. Unit };

    ghost end_returns = { λ _ _ _. Unit };

    fn write_str(&mut self, string: &str) -> Result<(), S::Error> {
        self.str(string)
    }

    fn write_none(&mut self) -> Result<(), S::Error> {
        self.unit()
    }

    fn begin_list(&mut self, len: usize) -> Result<(), S::Error> {
        self.begin_seq(Some(len))
    }

    fn end_list(&mut self) -> Result<(), S::Error> {
        self.end_seq()
    }
}
