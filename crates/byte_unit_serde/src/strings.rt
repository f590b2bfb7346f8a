//! Values that are stored as strings, and the ways to write and to read them.

ghost use Rattle.std.specs.Prelude.{◌≤◌, ℕ, List, Result, length, IfErr, IfOk, OnOk};
ghost use Rattle.std.specs.Result.{result_map_both};
ghost use Rattle.serde.specs.Event.{Log};
ghost use Rattle.byte_unit_serde.specs.Returns.{ReadingValue, Returns};
ghost use Rattle.byte_unit_serde.specs.Serialized.{ReadsValue};

use crate::messages::message_for;
use crate::{Sink, Source};
use serde::Deserializer;
use std::alloc::Global;
use std::marker::PhantomData;

/// Strings that are written in the way `W` and read in the way `R`.
pub struct Strings<W, R = W>(PhantomData<(W, R)>);

impl<W: SerializeString, R> Strings<W, R> {
    /// Writes the string of the value, as `W` does. Does not allocate.
    ///
    /// # Errors
    ///
    /// Returns the format's error if the format cannot write a string.
    pub fn serialize<S: Sink>(value: &W::Value, out: &mut S) -> Result<(), S::Error>
        ensures written { OnOk result (W.writes value.now (S.written out.old) (S.written out.new)) }
        ensures exact { W.writing S.str_returns value.now out.old result out.new }
    {
        W::serialize_string(value, out)
    }
}

impl<W, R: DeserializeString> Strings<W, R> {
    /// Reads a string as `R` parses it.
    ///
    /// # Errors
    ///
    /// Returns the format's error if the value is not a string, or the string is rejected. The message of a rejected
    /// string has the reason, and the string in quotes.
    pub fn deserialize<F: Source>(
        alloc: Global,
        from: &mut Deserializer<'_, '_, F>,
    ) -> Result<R::Value, F::Error>
        ensures string { IfOk result (ReadsValue R.means F.gives from.old from.new) }
        ensures exact { ReadingValue R.parses F.string_returns F.rejects from.old result from.new }
    {
        let text = F::read_string(alloc, from)?;
        match R::parse_string(text.as_str()) {
            Ok(value) => Ok(value),
            Err(reason) => {
                let message = message_for(reason, text.as_str());
                Err(F::rejection(from, message.as_str()))
            }
        }
    }
}

/// A way to write a value as a string: if nothing else is said, the text of a size with its unit, by
/// `FormatSpec::ALTERNATE`, or the name of a unit.
pub trait SerializeString {
    /// The type of the value.
    type Value;

    // What is written for the value.
    ghost writes: { Self.Value → Log → Log → Type 0 };
    // What is returned, by what the call that writes a string returned.
    ghost writing: { {D E : Type 0} → (List ℕ → Returns D Unit E) → Self.Value → Returns D Unit E };

    /// Writes the string of the value.
    fn serialize_string<S: Sink>(value: &Self::Value, out: &mut S) -> Result<(), S::Error>
        ensures written { OnOk result (writes value.now (S.written out.old) (S.written out.new)) }
        ensures exact { writing S.str_returns value.now out.old result out.new };
}

/// A way to read a value from a string: as `FromStr` of the type parses it, if nothing else is said. `FromStr` of a
/// unit reads `b` as bits, `B` as bytes, and a prefix alone as a multiple of bytes.
pub trait DeserializeString {
    /// The type of the value.
    type Value: Drop;

    // The string has this meaning.
    ghost means: { List ℕ → Self.Value → Type 0 };
    // The string is parsed as this: its value, or the reason why it is rejected.
    ghost parses: { List ℕ → Result Self.Value (List ℕ) → Type 0 };

    /// Parses a string.
    ///
    /// # Errors
    ///
    /// Returns the reason if the string is rejected, in at most 16 bytes.
    fn parse_string(text: &str) -> Result<Self::Value, &'static str>
        ensures value { IfOk result (means text.now) }
        ensures exact { parses text.now
            (result_map_both (λ value. value) (λ reason. reason.now) result) }
        ensures short { IfErr result (λ reason. length reason.now ≤ 16) };
}
