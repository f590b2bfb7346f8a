//! Converts records field by field, and finds the fields to convert.

ghost use Rattle.std.specs.Prelude.{◌≡◌, ◌+◌, ◌≤◌, ◌∷◌, ℕ, [], Some, MatchResult, IsTrue, IsFalse};
ghost use Rattle.byte_unit_command.specs.Field.{IsNoSize};
ghost use Rattle.byte_unit_command.specs.Fields.{fields_of};
ghost use Rattle.byte_unit_command.specs.Ranges.{AreApart, AreRangesFrom, GoesTo, InRange, IsChosenField};
ghost use Rattle.byte_unit_command.specs.CallEnds.{Ends, IsEarlyAt, Keeps, TellsLimits, state_of};
ghost use Rattle.byte_unit_command.specs.Converted.{converting};
ghost use Rattle.byte_unit_stream.specs.RecordSteps.{Adds};
ghost use Rattle.byte_unit_stream.specs.declared.run.RunError.{RunError};

use crate::blanks::{between, columns_in, end_of_first, separating_blank};
use crate::error::{EndReason, RunError, RunResult};
use crate::field_list::FieldList;
use crate::notice::{Context, Notices, add_limit_notice, add_reject_notice};
use crate::options::{FieldRange, Invalid, Options, Separator};
use crate::size::accepted;
use crate::tally::Tally;
use crate::text::{DIGITS, add_in_width};
use std::alloc::Allocator;

/// Converts records. Keeps how far the run has come, and what is not written yet.
#[derive(Drop)]
pub(crate) struct Converter<'a, A: Allocator> {
    /// The context of the last record.
    pub context: Context<'a>,
    /// The number of header records that are still to come.
    pub header: u64,
    /// What was counted so far.
    pub tally: Tally,
    /// Whole texts that are not written yet.
    pub waiting: Vec<u8, A>,
    /// Messages that are not written yet.
    pub notices: Notices<A>,
    /// A buffer for the text of a size.
    pub digits: [u8; DIGITS],
}

impl<'a, A: Allocator> Converter<'a, A> {
    /// Appends what is written for a record, with its end byte, and counts what is found in it.
    ///
    /// # Errors
    ///
    /// - `Ended` for `Rejected` if a field is not a size, in the mode `abort`.
    /// - `Memory` if allocation fails.
    ///
    /// Then a part of it may have been appended, and the messages up to that on the rejected field.
    #[inline(always)]
    pub(crate) fn append_record(&mut self, bytes: &[u8]) -> RunResult
        ensures { MatchResult result
            (λ _. Adds converting bytes.now (state_of self.old) (state_of self.new))
            (IsEarlyAt bytes.now (state_of self.old) (state_of self.new)) }
    {
        let options = self.context.options;
        self.context.number = self.context.number.saturating_add(1);
        if self.header > 0 {
            self.header -= 1;
            self.waiting.extend_from_slice(bytes)?;
        } else {
            self.add_fields(bytes)?;
        }
        self.waiting.extend_from_slice(&[options.output_end])?;
        Ok(())
    }

    /// Appends what is written for the fields of a record, which is no header record, and counts what is found in them.
    ///
    /// # Errors
    ///
    /// - `Ended` for `Rejected` if a field is not a size, in the mode `abort`.
    /// - `Memory` if allocation fails.
    #[inline(always)]
    fn add_fields(&mut self, bytes: &[u8]) -> RunResult
        ensures { Ends 1 (fields_of self.old.context.options.now bytes.now)
            (state_of self.old) (state_of self.new) result }
    {
        let options = self.context.options;
        match options.separator {
            // The whole record is field 1.
            None => self.add_field(None, 1, bytes, chooses_first(options.fields)),
            Some(separator) => self.add_separated(separator, bytes),
        }
    }

    /// Does what [`add_split`](Converter::add_split) does, by a loop for each separator.
    #[inline(never)]
    fn add_separated(&mut self, separator: Separator, bytes: &[u8]) -> RunResult
        requires { self.old.context.options.now.separator ≡ Some separator }
        ensures { Ends 1 (fields_of self.old.context.options.now bytes.now)
            (state_of self.old) (state_of self.new) result }
    {
        match separator {
            Separator::Byte(byte) => self.add_split(Separator::Byte(byte), bytes),
            Separator::Blanks => self.add_split(Separator::Blanks, bytes),
        }
    }

    /// Does what [`add_fields`](Converter::add_fields) does, for fields that are separated. After the last chosen
    /// field, copies the rest at once.
    ///
    /// Precondition (proved at every call): `separator` is that of the options.
    #[inline(always)]
    fn add_split(&mut self, separator: Separator, bytes: &[u8]) -> RunResult
        requires { self.old.context.options.now.separator ≡ Some separator }
        ensures { Ends 1 (fields_of self.old.context.options.now bytes.now)
            (state_of self.old) (state_of self.new) result }
    {
        // For the proof: there are fewer fields than a `u64` counts.
        let _len = bytes.len();
        let between = between(&separator);
        let mut ranges = ranges_after(self.context.options.fields.as_slice(), 0);
        let mut rest = bytes;
        let mut number = 1u64;
        while let Some(n) = end_of_first(separator, rest) {
            let chosen = is_chosen(ranges, number);
            self.add_field(Some(separator), number, &rest[..n], chosen)?;
            self.waiting.extend_from_slice(between)?;
            rest = &rest[n + between.len()..];
            ranges = ranges_after(ranges, number);
            number += 1;
            if ranges.is_empty() {
                self.waiting.extend_from_slice(rest)?;
                return Ok(());
            }
        }
        let chosen = is_chosen(ranges, number);
        self.add_field(Some(separator), number, rest, chosen)
    }

    /// Appends what is written for the field with this number, and counts what is found in it.
    ///
    /// Preconditions (proved at every call): `separator` is that of the options, and `chosen` says whether the field is
    /// chosen.
    ///
    /// # Errors
    ///
    /// - `Ended` for `Rejected` if the field is not a size, in the mode `abort`.
    /// - `Memory` if allocation fails.
    #[inline(always)]
    fn add_field(
        &mut self,
        separator: Option<Separator>,
        number: u64,
        field: &[u8],
        chosen: bool,
    ) -> RunResult
        requires separator { self.old.context.options.now.separator ≡ separator }
        requires yes { IsTrue chosen → IsChosenField self.old.context.options.now.fields.now number }
        requires no { IsFalse chosen → ¬ IsChosenField self.old.context.options.now.fields.now number }
        ensures { Ends number (field.now ∷ []) (state_of self.old) (state_of self.new) result }
    {
        if !chosen {
            self.waiting.extend_from_slice(field)?;
            return Ok(());
        }
        let options = self.context.options;
        let Some(size) = accepted(options, field) else {
            return self.add_rejected(number, field);
        };
        self.count(number, field, size)?;
        self.waiting
            .extend_from_slice(separating_blank(separator, number, field))?;
        let width = columns_in(separator, options.width, number, field);
        add_in_width(options, width, size, &mut self.digits, &mut self.waiting)?;
        Ok(())
    }

    /// Counts the size of a field, and appends the messages about it if it is beyond a limit.
    ///
    /// # Errors
    ///
    /// - `Memory` if allocation fails.
    #[inline(always)]
    fn count(&mut self, number: u64, field: &[u8], size: u128) -> RunResult
        ensures { MatchResult result
            (λ _. TellsLimits number field.now size (state_of self.old) (state_of self.new))
            (λ error. (error ≡ RunError.Memory) × Keeps (state_of self.old) (state_of self.new)) }
    {
        if self.tally.add(self.context.options, size) {
            add_limit_notice(&self.context, number, field, size, &mut self.notices)?;
        }
        Ok(())
    }

    /// Does what [`add_field`](Converter::add_field) does, for a field that is not a size.
    ///
    /// Preconditions (proved at every call): the field is chosen, and it is not a size.
    #[cold]
    #[inline(never)]
    fn add_rejected(&mut self, number: u64, field: &[u8]) -> RunResult
        requires chosen { IsChosenField self.old.context.options.now.fields.now number }
        requires none { IsNoSize self.old.context.options.now field.now }
        ensures { Ends number (field.now ∷ []) (state_of self.old) (state_of self.new) result }
    {
        add_reject_notice(&self.context, number, field, &mut self.notices)?;
        if self.context.options.invalid == Invalid::Abort {
            return Err(RunError::Ended(EndReason::Rejected));
        }
        self.tally.reject();
        self.waiting.extend_from_slice(field)?;
        Ok(())
    }
}

/// Returns `true` if the first field is in the list.
#[inline(never)]
fn chooses_first(fields: &FieldList) -> bool
    ensures yes { IsTrue result → IsChosenField fields.now 1 }
    ensures no { IsFalse result → ¬ IsChosenField fields.now 1 }
{
    is_chosen(ranges_after(fields.as_slice(), 0), 1)
}

/// Returns `true` if the field with this number is in one of the ranges.
///
/// Preconditions (proved at every call): the ranges are apart, and the first does not end before the field.
#[inline(always)]
fn is_chosen(ranges: &[FieldRange], number: u64) -> bool
    requires apart { AreApart ranges.now }
    requires goes { GoesTo ranges.now number }
    ensures yes { IsTrue result → IsChosenField ranges.now number }
    ensures no { IsFalse result → ¬ IsChosenField ranges.now number }
{
    match ranges {
        [] => false,
        [range, ..] => range.first <= number,
    }
}

/// Returns the ranges without the first one, if it ends with the field with this number.
///
/// Preconditions (proved at every call): the ranges are apart, and the first does not end before the field.
#[inline(always)]
fn ranges_after(ranges: &[FieldRange], number: u64) -> &[FieldRange]
    requires apart { AreApart ranges.now }
    requires goes { GoesTo ranges.now number }
    ensures { AreRangesFrom ranges.now (number + 1) result.now }
{
    match ranges {
        [] => ranges,
        [range, others @ ..] => {
            if ends_by(*range, number) {
                others
            } else {
                ranges
            }
        }
    }
}

/// Returns `true` if no field after the one with this number is in the range.
fn ends_by(range: FieldRange, number: u64) -> bool
    ensures yes { IsTrue result → (later : ℕ) → number + 1 ≤ later → ¬ InRange range later }
    ensures no { IsFalse result → GoesTo (range ∷ []) (number + 1) }
{
    match range.last {
        None => false,
        Some(last) => last <= number,
    }
}
