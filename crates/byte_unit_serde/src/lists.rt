//! Lists of what is stored as strings.

ghost use Rattle.std.specs.Prelude.{◌≡◌, ◌∷◌, [], ◌++◌, ◌≤◌, ◌<◌, ◌^◌, length, vec_len, vec_capacity};
ghost use Rattle.std.specs.Prelude.{IfErr, IfOk, OnErr, OnOk};
ghost use Rattle.serde.specs.Event.{WritesSeq};
ghost use Rattle.byte_unit_serde.specs.Returns.{IsListError, ReadingValue, WritingList};
ghost use Rattle.byte_unit_serde.specs.Serialized.{ReadsSeq};

use crate::strings::{DeserializeString, SerializeString, Strings};
use crate::{Sink, Source};
use serde::Deserializer;
use std::alloc::Global;
use std::marker::PhantomData;

/// Lists of strings that are written in the way `W` and read in the way `R`.
pub struct Lists<W, R = W>(PhantomData<(W, R)>);

impl<W: SerializeString, R> Lists<W, R> {
    /// Writes a sequence of the strings of the values, each as `W` does. Does not allocate.
    ///
    /// # Errors
    ///
    /// Returns the format's error if the format cannot write it.
    pub fn serialize<S: Sink>(values: &Vec<W::Value>, out: &mut S) -> Result<(), S::Error>
        ensures written { OnOk result
            (WritesSeq W.writes values.now.items (S.written out.old) (S.written out.new)) }
        ensures exact { WritingList S.begin_returns S.end_returns (W.writing S.str_returns)
            values.now.items out.old result out.new }
    {
        out.begin_list(values.len())?;
        for item in values {
            W::serialize_string(item, out)?;
        }
        out.end_list()
    }
}

impl<W, R: DeserializeString> Lists<W, R> {
    /// Reads a sequence of strings, each as `R` parses it.
    ///
    /// # Errors
    ///
    /// Returns the format's error if the value is not a sequence of strings, a string is rejected, or an allocation
    /// fails.
    pub fn deserialize<F: Source>(
        alloc: Global,
        from: &mut Deserializer<'_, '_, F>,
    ) -> Result<Vec<R::Value>, F::Error>
        ensures list { IfOk result (λ values.
            ReadsSeq R.means F.gives F.stays from.old from.new values.items) }
        ensures error { IfErr result
            (IsListError R.means F.gives F.stays F.begin_returns F.next_returns
            (ReadingValue R.parses F.string_returns F.rejects) F.runs_out from.old from.new) }
    {
        F::begin_list(from)?;
        let mut items = Vec::new(alloc);
        while F::next_in_list(from)? {
            let item = Strings::<W, R>::deserialize(alloc, from)?;
            append(from, &mut items, item)?;
        }
        Ok(items)
    }
}

/// Appends an item to a list.
///
/// # Errors
///
/// Returns the format's error of a failed allocation, only if the list is at its capacity.
fn append<F: Source, T: Drop>(
    from: &Deserializer<'_, '_, F>,
    items: &mut Vec<T>,
    item: T,
) -> Result<(), F::Error>
    ensures items { OnOk result (items.new.items ≡ items.old.items ++ item ∷ []) }
    ensures bound { length items.old.items < 2 ^ 64 }
    ensures full { OnErr result (vec_capacity items.old ≤ vec_len items.old) }
    ensures out_of_memory { IfErr result (F.runs_out from.now) }
{
    // That it is a `usize` is the clause `bound`, by which a loop over the items ends.
    let _len = items.len();
    items.push(item).map_err(|_| F::out_of_memory(from))
}
