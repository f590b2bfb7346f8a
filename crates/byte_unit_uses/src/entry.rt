//! Entries of a report: a name, borrowed from the input, and a size.

ghost use Rattle.std.specs.Prelude.{◌≡◌, ◌++◌, ◌∷◌, [], ◌<◌, ◌≤◌, IfOk, IfErr, SomeIff, OnOk, OnErr, false};
ghost use Rattle.std.specs.Prelude.{sum_by, vec_len, vec_capacity};
ghost use Rattle.byte_unit.specs.Sizes.Accepted.{IsAccepted, IsRejected};
ghost use Rattle.byte_unit.specs.Bounds.{size_limit};
ghost use Rattle.byte_unit.specs.Errors.Meaning.{size_fault};
ghost use Rattle.byte_unit.specs.declared.Kind.TheVariants.{Byte as InBytes};

use byte_unit::{Byte, ParseError};
use std::alloc::AllocError;
use std::marker::Model;

/// A name and a size.
#[derive(Debug, Drop)]
pub struct Entry<'a> {
    name: &'a str,
    size: Byte,
}

/// The view is the record of the fields. The model lets an entry be stored in an `Option` and a `Vec`: the borrow
/// checker has no rule for moving a struct with a visible reference beside a size.
impl<'a> Model for Entry<'a> {
    ghost use Rattle.byte_unit_uses.specs.EntryView.{EntryView};

    ghost Value = { EntryView };

    ghost view = { λ entry. record { name = entry.name; size = entry.size } };

    ghost inverse = { λ entry. record { name = entry.name; size = entry.size } };
}

impl<'a> Entry<'a> {
    /// Creates an entry from a name and a string that represents its size.
    ///
    /// # Errors
    /// Returns the parse error if the string represents no size.
    pub fn read(name: &'a str, text: &str) -> Result<Entry<'a>, ParseError>
        ensures name { IfOk result (λ entry. entry.name.now ≡ name.now) }
        ensures size { IfOk result (λ entry. IsAccepted InBytes false text.now entry.size) }
        ensures reason { IfErr result
            (λ error. IsRejected InBytes false text.now (size_fault error)) }
    {
        let size = text.parse()?;
        Ok(Entry { name, size })
    }

    /// Returns the name.
    pub fn name(&self) -> &'a str
        ensures { result.now ≡ self.now.name.now }
    {
        self.name
    }

    /// Returns the size.
    pub fn size(&self) -> Byte
        ensures { result ≡ self.now.size }
    {
        self.size
    }
}

/// Returns the entry if its size is below the limit, and otherwise `None`.
pub fn filter_below<'a>(candidate: Entry<'a>, limit: Byte) -> Option<Entry<'a>>
    ensures { SomeIff result (candidate.entry.size < limit) candidate.entry }
{
    if candidate.size() < limit {
        Some(candidate)
    } else {
        None
    }
}

/// Appends an entry to a report.
///
/// # Errors
/// Returns `AllocError` if allocation fails, and then the report is unchanged. Never if the report has spare capacity.
pub fn add<'a>(report: &mut Vec<Entry<'a>>, entry: Entry<'a>) -> Result<(), AllocError>
    ensures added { OnOk result (report.new.items ≡ report.old.items ++ entry.entry ∷ []) }
    ensures unchanged { OnErr result (report.new.items ≡ report.old.items) }
    ensures full { OnErr result (vec_capacity report.old ≤ vec_len report.old) }
{
    report.push(entry)?;
    Ok(())
}

/// Returns the total size of the entries. Returns `None` if it is 10^30 bytes or more.
pub fn total(report: &[Entry]) -> Option<Byte>
    ensures { let total = sum_by (λ entry. entry.size) report.now in
        SomeIff result (total < size_limit) total }
{
    let mut sum = Byte::default();
    for entry in report {
        sum = sum.add(entry.size)?;
    }
    Some(sum)
}
