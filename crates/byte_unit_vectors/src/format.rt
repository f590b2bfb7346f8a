//! Format strings of the Rust crate, such as `{:>+#10.2}`.

use crate::row_error::RowError;
use crate::words::number_of;
use byte_unit::{Align, FormatSpec, Sign};

/// The alignments.
const ALIGNS: &[(&str, Align)] = &[
    ("<", Align::Left),
    ("^", Align::Center),
    (">", Align::Right),
];

/// Returns the spec of a format string.
///
/// # Errors
/// Returns an error if it is none.
pub fn spec_of(word: &str) -> Result<FormatSpec, RowError> {
    if word == "{}" {
        return Ok(FormatSpec::PLAIN);
    }
    let rest = word.strip_prefix("{:").ok_or(RowError::Word)?;
    let rest = rest.strip_suffix('}').ok_or(RowError::Word)?;
    let (align, rest) = marked(rest, ALIGNS);
    let (sign, rest) = marked(rest, &[("+", Sign::Plus), ("-", Sign::Minus)]);
    let (alternate, rest) = marked(rest, &[("#", true)]);
    let (width, precision) = match rest.split_once('.') {
        Some((width, precision)) => (width, Some(number_of(precision)?)),
        None => (rest, None),
    };
    let width = match width {
        "" => None,
        width => Some(number_of(width)?),
    };
    Ok(FormatSpec {
        alternate: alternate.is_some(),
        sign: sign.unwrap_or(Sign::Unset),
        precision,
        width,
        align,
    })
}

/// Returns what the mark at the beginning of a text means, if there is one of these, and the rest.
fn marked<'a, T: Copy>(text: &'a str, marks: &[(&str, T)]) -> (Option<T>, &'a str) {
    for (mark, meaning) in marks {
        if let Some(rest) = text.strip_prefix(*mark) {
            return (Some(*meaning), rest);
        }
    }
    (None, text)
}
