//! Optional values that are stored as strings.

ghost use Rattle.std.specs.Prelude.{IfOk, OnOk};
ghost use Rattle.serde.specs.Event.{WritesOption};
ghost use Rattle.byte_unit_serde.specs.Returns.{ReadingValue, ReadingOption, WritingOption};
ghost use Rattle.byte_unit_serde.specs.Serialized.{ReadsOption};

use crate::strings::{DeserializeString, SerializeString, Strings};
use crate::{Sink, Source};
use serde::Deserializer;
use std::alloc::Global;
use std::marker::PhantomData;

/// Optional strings that are written in the way `W` and read in the way `R`.
pub struct OptionalStrings<W, R = W>(PhantomData<(W, R)>);

impl<W: SerializeString, R> OptionalStrings<W, R> {
    /// Writes the string of the value, as `W` does, or nothing. Does not allocate.
    ///
    /// # Errors
    ///
    /// Returns the format's error if the format cannot write it.
    pub fn serialize<S: Sink>(value: &Option<W::Value>, out: &mut S) -> Result<(), S::Error>
        ensures written { OnOk result
            (WritesOption W.writes value.now (S.written out.old) (S.written out.new)) }
        ensures exact { WritingOption S.none_returns (W.writing S.str_returns)
            value.now out.old result out.new }
    {
        match value {
            Some(value) => W::serialize_string(value, out),
            None => out.write_none(),
        }
    }
}

impl<W, R: DeserializeString> OptionalStrings<W, R> {
    /// Reads nothing, or a string as `R` parses it.
    ///
    /// # Errors
    ///
    /// Returns the format's error if the value is neither nothing nor a string, or the string is rejected.
    pub fn deserialize<F: Source>(
        alloc: Global,
        from: &mut Deserializer<'_, '_, F>,
    ) -> Result<Option<R::Value>, F::Error>
        ensures option { IfOk result (ReadsOption R.means F.gives F.stays from.old from.new) }
        ensures exact { ReadingOption F.none_returns (ReadingValue R.parses F.string_returns F.rejects)
            from.old result from.new }
    {
        if F::read_none(from)? {
            return Ok(None);
        }
        Ok(Some(Strings::<W, R>::deserialize(alloc, from)?))
    }
}
