//! Sizes and units that are stored as strings, as items of collections.

ghost use Rattle.std.specs.Prelude.{IfOk};
ghost use Rattle.byte_unit_serde.specs.Serialized.{ReadsValue};

use crate::strings::{DeserializeString, SerializeString, Strings};
use serde::{
    Described, Deserialize, DeserializeOwned, Deserializer, Format, Serialize, Serializer,
};
use std::alloc::Global;

/// A `Byte`, `Bit` or `Unit` that is written and read as a string, for fields and items of collections.
///
/// # Examples
///
/// ```rust
/// use byte_unit::Byte;
/// use byte_unit_serde::Stored;
///
/// let limits = vec![in alloc; Stored(Byte::KILOBYTE), Stored(Byte::GIBIBYTE)]?;
/// assert_eq!(rt; serde_json::to_string(alloc, &limits)?.as_str(), "[\"1 KB\",\"1 GiB\"]");
/// ```
#[derive(Clone, Copy, Debug, PartialEq, Eq)]
pub struct Stored<T>(pub T);

impl<T: SerializeString<Value = T>> Described for Stored<T> {
    ghost writes = { λ stored. T.writes stored.0 };
}

impl<T: SerializeString<Value = T>> Serialize for Stored<T> {
    fn serialize<S: Serializer>(&self, out: &mut S) -> Result<(), S::Error> {
        T::serialize_string(&self.0, out)
    }
}

impl<T: DeserializeString<Value = T> + Drop> DeserializeOwned for Stored<T> {
    fn deserialize_owned<F: Format>(
        alloc: Global,
        from: &mut Deserializer<'_, '_, F>,
    ) -> Result<Stored<T>, F::Error>
        ensures { IfOk result (λ stored. ReadsValue T.means F.gives from.old from.new stored.0) }
    {
        Ok(Stored(Strings::<T>::deserialize(alloc, from)?))
    }
}

impl<'de, T: DeserializeString<Value = T> + Drop> Deserialize<'de> for Stored<T> {
    fn deserialize<F: Format>(
        alloc: Global,
        from: &mut Deserializer<'de, '_, F>,
    ) -> Result<Stored<T>, F::Error>
        ensures { IfOk result (λ stored. ReadsValue T.means F.gives from.old from.new stored.0) }
    {
        DeserializeOwned::deserialize_owned(alloc, from)
    }
}
