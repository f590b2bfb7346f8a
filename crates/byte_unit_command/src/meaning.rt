//! What the values of the options of a call mean.

ghost use Rattle.std.specs.Prelude.{◌≡◌, ℕ, List, Some, MatchOption, MatchResult, IfOk, IfErr, codes};
ghost use Rattle.byte_unit_command.specs.CallOptions.{AreOptions, IsFirstWrong, IsWrongOf};
ghost use Rattle.byte_unit_command.specs.CallOptions.{IsFormOf, IsWithinExact, IsWrongForm};
ghost use Rattle.byte_unit_command.specs.CallOptions.{IsWrongNoUnit, AreFieldsSeparated};
ghost use Rattle.byte_unit_command.specs.CallOptions.{IsSeparator, IsWrongSeparator, IsWrongList, ranges_of};
ghost use Rattle.byte_unit_command.specs.Meaning.{IsFrom, IsOutputForm};
ghost use Rattle.byte_unit_command.specs.Meaning.{IsUnitName, IsNoUnitName};
ghost use Rattle.byte_unit_command.specs.Meaning.{IsPadding, IsWidth};
ghost use Rattle.byte_unit_command.specs.Meaning.{IsMode, MeansNothing, IsLimit, IsNoLimit};
ghost use Rattle.byte_unit_command.specs.Values.{given_text};
ghost use Rattle.byte_unit_command.specs.declared.meaning.Padding.{Padding};
ghost use Rattle.byte_unit_command.specs.declared.options.FieldRange.{FieldRange};

use crate::field_list::{FieldList, positive_of};
use crate::options::{Form, Invalid, Kind, Options, ParseSpec, Separator, Unit, UnitType};
use crate::values::Values;
use crate::wrong::{ValueError, Wrong};
use byte_unit_base::size;
use byte_unit_math::DECIMAL_PLACES;

/// The value of `--padding`.
#[derive(Clone, Copy)]
pub(crate) struct Padding {
    /// The least number of bytes of a size; 0 for none.
    width: u16,
    /// Whether sizes are aligned to the left.
    align_left: bool,
}

/// Returns the options of a call. `fields` is what `field_list::fields_of` returned for the value of `--field`.
///
/// # Errors
///
/// Returns the first option that is wrong, in the order of `--from`, `--to`, `--precision`, `--no-unit`, `--delimiter`,
/// `--field`, `--padding`, `--invalid`, `--max` and `--min`.
pub fn options_of<'a>(
    values: &Values<'a>,
    fields: Option<&'a FieldList>,
) -> Result<Options<'a>, Wrong<'a>>
    ensures ok { IfOk result (λ options. (ranges : List FieldRange)
        × (ranges_of fields.entry ≡ Some ranges) × AreOptions values.now ranges options) }
    ensures err { IfErr result (IsFirstWrong values.now fields.entry) }
{
    let binary = from_of(values.from)?;
    let given = form_of(values)?;
    let form = output_form(values.no_unit, given)?;
    let separator = separator_of(values)?;
    let fields = listed(values, fields)?;
    let padding = padding_of(values.padding)?;
    let invalid = invalid_of(values.invalid)?;
    let spec = ParseSpec {
        kind: values.kind,
        ignore_case: values.ignore_case,
        binary,
        words: values.words,
    };
    let max = limit_of("--max", values.max, spec)?;
    let min = limit_of("--min", values.min, spec)?;
    let header = values.header.unwrap_or(0);
    let output_end = if values.zero_terminated { 0 } else { b'\n' };
    Ok(Options {
        spec,
        form,
        precision: match values.precision {
            Some(precision) => Some(precision),
            // One digit after the point with `-H`, if `--precision` is not given.
            None => { if values.human_readable { Some(1) } else { None } }
        },
        suffix: values.suffix.unwrap_or("").as_bytes(),
        width: padding.width,
        align_left: padding.align_left,
        separator,
        fields,
        // Each operand ends with a zero byte, and none is a header.
        record_end: if values.has_operands { 0 } else { output_end },
        output_end,
        header: if values.has_operands { 0 } else { header },
        invalid,
        total: values.total,
        hints: !values.no_hints,
        max,
        min,
    })
}

/// Returns what is wrong with this value of an option.
fn wrong<'a>(option: &'static str, value: &'a str, reason: ValueError) -> Wrong<'a>
    ensures { result
        ≡ record { option = option.entry; value = Some value.entry; reason = reason } }
{
    Wrong {
        option,
        value: Some(value),
        reason,
    }
}

/// Returns whether a decimal prefix in a size means the binary one.
///
/// # Errors
///
/// Returns an error if the value is not one of the words that say how prefixes are read.
fn from_of(value: Option<&str>) -> Result<bool, Wrong<'_>>
    ensures ok { IfOk result (IsFrom (given_text value.entry)) }
    ensures err { IfErr result
        (IsWrongOf (codes "--from") value.entry (MeansNothing IsFrom ValueError.From)) }
{
    let Some(value) = value else {
        return Ok(false);
    };
    // Words of `numfmt --from`. `Ki` is 1024 in any case, so all but `iec` mean the same.
    match value {
        "iec" => Ok(true),
        "auto" => Ok(false),
        "si" => Ok(false),
        "iec-i" => Ok(false),
        _ => Err(wrong("--from", value, ValueError::From)),
    }
}

/// Returns how a size is formatted.
///
/// # Errors
///
/// Returns an error if the value is neither the word for a form nor a unit, or if more than 28 digits after the point
/// are asked for in the exact form, which never has more.
fn form_of<'a>(values: &Values<'a>) -> Result<Form, Wrong<'a>>
    ensures ok { IfOk result (λ form. IsFormOf values.now form
        × IsWithinExact form values.now.precision) }
    ensures err { IfErr result (IsWrongForm values.now) }
{
    let default = if values.human_readable {
        "iec"
    } else {
        "exact"
    };
    let value = values.to.unwrap_or(default);
    match value {
        "exact" => match values.precision {
            Some(precision) if u32::from(precision) > DECIMAL_PLACES => Err(Wrong {
                option: "--precision",
                value: None,
                reason: ValueError::Precision,
            }),
            Some(_) | None => Ok(Form::Exact),
        },
        "plain" => Ok(Form::Plain),
        "si" => Ok(Form::Largest(UnitType::Decimal)),
        "iec" => Ok(Form::Largest(UnitType::Binary)),
        "auto" => Ok(Form::Largest(UnitType::Both)),
        _ => match unit_named(value, values.kind, values.ignore_case) {
            Ok(unit) => Ok(Form::InUnit(unit)),
            Err(reason) => Err(wrong("--to", value, reason)),
        },
    }
}

/// Returns the form of the output, with or without the unit.
///
/// # Errors
///
/// Returns an error if there is no unit that could be left out.
fn output_form<'a>(no_unit: bool, given: Form) -> Result<Form, Wrong<'a>>
    ensures ok { IfOk result (IsOutputForm no_unit given) }
    ensures err { IfErr result (IsWrongNoUnit no_unit given) }
{
    if !no_unit {
        return Ok(given);
    }
    match given {
        Form::InUnit(unit) => Ok(Form::NumberOf(unit)),
        Form::Plain => Ok(Form::Plain),
        Form::Exact | Form::NumberOf(_) | Form::Largest(_) => Err(Wrong {
            option: "--no-unit",
            value: None,
            reason: ValueError::NoUnit,
        }),
    }
}

/// Returns the unit that a value spells. White space alone, which the library parses as the unit without a prefix, is
/// not a unit here.
fn unit_named(value: &str, kind: Kind, ignore_case: bool) -> Result<Unit, ValueError>
    ensures { MatchResult result (IsUnitName kind ignore_case value.now)
        (IsNoUnitName kind ignore_case value.now) }
{
    if value.trim().is_empty() {
        return Err(ValueError::Blank);
    }
    // The last argument says whether a unit without the letter `B` or `b` is of bytes.
    let unit = match kind {
        Kind::Byte => Unit::parse_str(value, ignore_case, true),
        Kind::Bit => Unit::parse_str(value, false, false),
    };
    match unit {
        Ok(unit) => Ok(unit),
        Err(error) => Err(ValueError::Unit(error)),
    }
}

/// Returns what separates fields: blanks, or else the delimiter. Returns `None` if a record is one field.
///
/// # Errors
///
/// Returns an error if the delimiter is not empty, one byte or `\t`, or if `--field` is given and nothing separates the
/// fields.
fn separator_of<'a>(values: &Values<'a>) -> Result<Option<Separator>, Wrong<'a>>
    ensures ok { IfOk result (λ separator. IsSeparator values.now separator
        × AreFieldsSeparated values.now) }
    ensures err { IfErr result (IsWrongSeparator values.now) }
{
    let delimiter = match values.delimiter {
        None => None,
        Some(value) => match value.as_bytes() {
            [] => None,
            [byte] => Some(Separator::Byte(*byte)),
            b"\\t" => Some(Separator::Byte(b'\t')),
            _ => return Err(wrong("--delimiter", value, ValueError::Delimiter)),
        },
    };
    if values.blanks {
        return Ok(Some(Separator::Blanks));
    }
    if values.field.is_some() && values.delimiter.is_none() {
        return Err(Wrong {
            option: "--field",
            value: values.field,
            reason: ValueError::NoDelimiter,
        });
    }
    Ok(delimiter)
}

/// Returns the fields that are converted.
///
/// # Errors
///
/// Returns an error if the value of `--field` is not a list of fields.
fn listed<'a>(
    values: &Values<'a>,
    fields: Option<&'a FieldList>,
) -> Result<&'a FieldList, Wrong<'a>>
    ensures ok { IfOk result (λ list. ranges_of fields.entry ≡ Some list.now) }
    ensures err { IfErr result (IsWrongList values.now fields.entry) }
{
    match fields {
        Some(fields) => Ok(fields),
        None => Err(Wrong {
            option: "--field",
            value: values.field,
            reason: ValueError::Fields,
        }),
    }
}

/// Returns the width, and whether sizes are aligned to the left.
///
/// # Errors
///
/// Returns an error if the value is not a number from 1 to 65535, or its negative.
fn padding_of(value: Option<&str>) -> Result<Padding, Wrong<'_>>
    ensures ok { IfOk result (IsPadding (given_text value.entry)) }
    ensures err { IfErr result
        (IsWrongOf (codes "--padding") value.entry (MeansNothing IsPadding ValueError.Padding)) }
{
    let Some(value) = value else {
        return Ok(Padding {
            width: 0,
            align_left: false,
        });
    };
    match signed_width(value) {
        Some(padding) => Ok(padding),
        None => Err(wrong("--padding", value, ValueError::Padding)),
    }
}

/// Parses a width, and whether a hyphen before it aligns sizes to the left. Returns `None` if the text is neither.
fn signed_width(text: &str) -> Option<Padding>
    ensures { MatchOption result ((padding : Padding) → ¬ IsPadding (Some text.now) padding)
        (IsPadding (Some text.now)) }
{
    match text.strip_prefix('-') {
        Some(digits) => Some(Padding {
            width: width_of(digits)?,
            align_left: true,
        }),
        None => Some(Padding {
            width: width_of(text)?,
            align_left: false,
        }),
    }
}

/// Parses a width, from 1 to 65535: decimal digits, without a sign. Returns `None` if the text is no such number.
fn width_of(digits: &str) -> Option<u16>
    ensures { MatchOption result ((width : ℕ) → ¬ IsWidth digits.now width) (IsWidth digits.now) }
{
    let width = positive_of(digits)?;
    u16::try_from(width).ok()
}

/// Returns what a rejected field does.
///
/// # Errors
///
/// Returns an error if the value is not the word for a mode.
fn invalid_of(value: Option<&str>) -> Result<Invalid, Wrong<'_>>
    ensures ok { IfOk result (IsMode (given_text value.entry)) }
    ensures err { IfErr result
        (IsWrongOf (codes "--invalid") value.entry (MeansNothing IsMode ValueError.Mode)) }
{
    let Some(value) = value else {
        return Ok(Invalid::Abort);
    };
    match value {
        "abort" => Ok(Invalid::Abort),
        "fail" => Ok(Invalid::Fail),
        "warn" => Ok(Invalid::Warn),
        "ignore" => Ok(Invalid::Ignore),
        _ => Err(wrong("--invalid", value, ValueError::Mode)),
    }
}

/// Returns a limit of the sizes, which is parsed as they are. Returns `None` if there is no value.
///
/// # Errors
///
/// Returns an error if the value is not a size.
fn limit_of<'a>(
    option: &'static str,
    value: Option<&'a str>,
    spec: ParseSpec,
) -> Result<Option<u128>, Wrong<'a>>
    ensures ok { IfOk result (IsLimit spec (given_text value.entry)) }
    ensures err { IfErr result (IsWrongOf option.entry.now value.entry (IsNoLimit spec)) }
{
    let Some(value) = value else {
        return Ok(None);
    };
    match size::explain(value.as_bytes(), spec) {
        Some(Ok(size)) => Ok(Some(size)),
        Some(Err(error)) => Err(wrong(option, value, ValueError::Size(error))),
        // Never: a string is UTF-8.
        None => Ok(None),
    }
}
