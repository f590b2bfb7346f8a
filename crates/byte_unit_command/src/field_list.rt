//! The list of fields that `--field` names.

ghost use Rattle.std.specs.Prelude.{ℕ, ◌+◌, ◌≤◌, ◌↔◌, ◌⊎◌, Option, MatchOption, IfOk, IfSome, IfNone, IsTrue, IsFalse};
ghost use Rattle.std.specs.Prelude.{◌≡◌, codes, option_map, unwrap_or};
ghost use Rattle.std.specs.List.{All};
ghost use Rattle.std.specs.List.Sorted.{IsNonDecreasingBy};
ghost use Rattle.byte_unit_command.specs.FieldList.{IsRangeStart, IsRangeEnd, IsRange, IsListReading};
ghost use Rattle.byte_unit_command.specs.Positive.{IsPositive};
ghost use Rattle.byte_unit_command.specs.Ranges.{AreApart, ChooseSame, HasField, InRange, IsAdded, IsApart};
ghost use Rattle.byte_unit_command.specs.declared.options.FieldRange.{FieldRange};

use crate::options::FieldRange;
use std::alloc::{AllocError, Global};
use std::marker::Model;

/// The fields that are converted: ranges in their order, with a field in each of them and between each two.
///
/// So a run goes along the fields of a record and the ranges at the same time.
#[derive(Debug, Drop)]
pub struct FieldList {
    ranges: Vec<FieldRange>,
}

/// The view is the list of the ranges.
impl Model for FieldList {
    ghost use Rattle.std.specs.Prelude.{List};
    ghost use Rattle.byte_unit_command.specs.Ranges.{AreApart};
    ghost use Rattle.byte_unit_command.specs.declared.options.FieldRange.{FieldRange};

    ghost Value = { List FieldRange };

    ghost view = { λ fields. fields.ranges.items };

    ghost invariant = { λ fields. AreApart fields.ranges.items };
}

impl FieldList {
    /// Creates the list of the fields that are in one of the ranges. These may have any order, and fields in common.
    ///
    /// # Errors
    ///
    /// Returns `AllocError` if allocation fails.
    pub fn new(alloc: Global, mut ranges: Vec<FieldRange>) -> Result<FieldList, AllocError>
        ensures { IfOk result (ChooseSame ranges.items) }
    {
        ranges.sort_unstable_by_key(|range| range.first);
        let merged = merge(alloc, ranges.as_slice())?;
        Ok(FieldList { ranges: merged })
    }

    /// Returns the ranges.
    pub fn as_slice(&self) -> &[FieldRange]
        ensures view { result.now ≡ self.now }
        ensures apart { AreApart result.now }
    {
        &self.ranges
    }
}

/// Returns the ranges of the fields that are in one of these ranges.
///
/// Precondition (proved at every call): no range begins before the one before it.
///
/// # Errors
///
/// Returns `AllocError` if allocation fails.
fn merge(alloc: Global, ranges: &[FieldRange]) -> Result<Vec<FieldRange>, AllocError>
    requires order { IsNonDecreasingBy (λ range. range.first) ranges.now }
    ensures apart { IfOk result (λ merged. AreApart merged.items) }
    ensures same { IfOk result (λ merged. ChooseSame ranges.now merged.items) }
{
    let mut merged = Vec::new(alloc);
    for range in ranges {
        add_range(&mut merged, *range)?;
    }
    Ok(merged)
}

/// Adds a range: to the last one, if no field is between the two, and else after it.
///
/// Preconditions (proved at every call): the ranges are apart, and none begins after the new one.
///
/// # Errors
///
/// Returns `AllocError` if allocation fails.
fn add_range(ranges: &mut Vec<FieldRange>, range: FieldRange) -> Result<(), AllocError>
    requires apart { AreApart ranges.old.items }
    requires begun { All (λ each. each.first ≤ range.first) ranges.old.items }
    ensures { IfOk result (λ _. IsAdded ranges.old.items range ranges.new.items) }
{
    if !has_field(range) {
        return Ok(());
    }
    let Some(last) = ranges.pop() else {
        ranges.push(range)?;
        return Ok(());
    };
    match union(last, range) {
        Some(both) => ranges.push(both)?,
        None => {
            ranges.push(last)?;
            ranges.push(range)?;
        }
    }
    Ok(())
}

/// Returns `true` if a field is in the range.
fn has_field(range: FieldRange) -> bool
    ensures yes { IsTrue result → HasField range }
    ensures no { IsFalse result → (number : ℕ) → ¬ InRange range number }
{
    match range.last {
        None => true,
        Some(last) => range.first <= last,
    }
}

/// Returns the range of the fields that are in one of the two ranges, or `None` if a field is between them.
///
/// Precondition (proved at every call): the second range does not begin before the first one.
fn union(range: FieldRange, next: FieldRange) -> Option<FieldRange>
    requires field { HasField range }
    requires order { range.first ≤ next.first }
    ensures first { IfSome result (λ both. both.first ≡ range.first) }
    ensures field { IfSome result HasField }
    ensures same { IfSome result (λ both.
        (number : ℕ) → InRange both number ↔ (InRange range number ⊎ InRange next number)) }
    ensures none { IfNone result (IsApart range next) }
{
    let Some(last) = range.last else {
        return Some(range);
    };
    if last.saturating_add(1) < next.first {
        return None;
    }
    let Some(other) = next.last else {
        return Some(FieldRange {
            first: range.first,
            last: None,
        });
    };
    Some(FieldRange {
        first: range.first,
        last: Some(last.max(other)),
    })
}

/// Returns the fields of a list, or the first field if there is no list. Returns `None` if the list is wrong.
///
/// A list is ranges between commas: `N`, `N-`, `N-M`, `-M` or `-`, where the numbers are decimal digits, from 1 to
/// 2^64 - 1, and the first is not above the last. All else is wrong, also a number of 2^64 or more.
///
/// # Errors
///
/// Returns `AllocError` if allocation fails.
pub fn fields_of(alloc: Global, list: Option<&str>) -> Result<Option<FieldList>, AllocError>
    ensures { IfOk result (IsListReading
        (unwrap_or (option_map (λ list. list.now) list.entry) (codes "1"))) }
{
    let mut ranges = Vec::new(alloc);
    let Some(list) = list else {
        ranges.push(FieldRange {
            first: 1,
            last: Some(1),
        })?;
        return Ok(Some(FieldList::new(alloc, ranges)?));
    };
    for item in list.split(',') {
        match range_of(item) {
            Some(range) => ranges.push(range)?,
            None => return Ok(None),
        }
    }
    Ok(Some(FieldList::new(alloc, ranges)?))
}

/// Returns the range that one item of a list is, or `None` if it is none.
fn range_of(item: &str) -> Option<FieldRange>
    ensures { MatchOption result ((range : FieldRange) → ¬ IsRange item.now range)
        (IsRange item.now) }
{
    match item.split_once('-') {
        Some((before, after)) => {
            let first = first_of(before)?;
            let last = last_of(after, first)?;
            Some(FieldRange { first, last })
        }
        None => {
            let field = positive_of(item)?;
            Some(FieldRange {
                first: field,
                last: Some(field),
            })
        }
    }
}

/// Returns the first field of a range, from the text before its hyphen.
fn first_of(before: &str) -> Option<u64>
    ensures { MatchOption result ((first : ℕ) → ¬ IsRangeStart before.now first) (IsRangeStart before.now) }
{
    if before.is_empty() {
        return Some(1);
    }
    positive_of(before)
}

/// Returns the last field of a range that begins at `first`, from the text after its hyphen.
fn last_of(after: &str, first: u64) -> Option<Option<u64>>
    ensures { MatchOption result
        ((last : Option ℕ) → ¬ IsRangeEnd after.now first last) (IsRangeEnd after.now first) }
{
    if after.is_empty() {
        return Some(None);
    }
    let last = positive_of(after)?;
    if last < first {
        return None;
    }
    Some(Some(last))
}

/// Parses a number from 1 to 2^64 - 1: decimal digits, without a sign. Returns `None` if the text is no such number.
pub(crate) fn positive_of(text: &str) -> Option<u64>
    ensures { MatchOption result ((number : ℕ) → ¬ IsPositive text.now number)
        (IsPositive text.now) }
{
    match text.parse::<u64>() {
        Ok(number) if number > 0 && !text.starts_with('+') => Some(number),
        _ => None,
    }
}
