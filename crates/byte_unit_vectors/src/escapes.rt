//! The escapes of rows: `\u{E9}` is the character with that code point, and `\{9*c}` is `c` nine times, where `c` may
//! be a `\u{..}`.

use crate::row_error::RowError;
use std::alloc::{AllocError, Global};

/// Returns a text with nothing escaped.
///
/// # Errors
/// Returns an error if a backslash begins no escape, or if allocation fails.
pub fn unescaped(alloc: Global, text: &str) -> Result<String, RowError> {
    let text = repeated(alloc, text)?;
    let mut pieces = text.as_str().split('\\');
    let mut out = String::from_str(alloc, pieces.next().unwrap_or(""))?;
    for piece in pieces {
        let piece = piece.strip_prefix("u{").ok_or(RowError::Escape)?;
        let (digits, rest) = piece.split_once('}').ok_or(RowError::Escape)?;
        let code = u32::from_str_radix(digits, 16).ok();
        out.push(code.and_then(char::from_u32).ok_or(RowError::Escape)?)?;
        out.push_str(rest)?;
    }
    Ok(out)
}

/// Returns a text in which each `\{9*c}` is replaced by `c` nine times, as it is escaped.
fn repeated(alloc: Global, text: &str) -> Result<String, RowError> {
    let mut pieces = text.split("\\{");
    let mut out = String::from_str(alloc, pieces.next().unwrap_or(""))?;
    for piece in pieces {
        let (times, rest) = piece.split_once('*').ok_or(RowError::Escape)?;
        let times = times.parse::<usize>().ok().ok_or(RowError::Escape)?;
        // A `\u{..}` has a brace of its own.
        let end = if rest.starts_with('\\') { "}}" } else { "}" };
        let (_, after) = rest.split_once(end).ok_or(RowError::Escape)?;
        let braced = rest.strip_suffix(after).unwrap_or("");
        let character = braced.strip_suffix('}').unwrap_or("");
        out.push_str(character.repeat(alloc, times)?.as_str())?;
        out.push_str(after)?;
    }
    Ok(out)
}

/// Returns a text in printable ASCII, with `\u{..}` for each other character and for a backslash.
///
/// # Errors
/// Returns `AllocError` if allocation fails.
pub fn escaped(alloc: Global, text: &str) -> Result<String, AllocError> {
    let mut out = String::new(alloc);
    for character in text.chars() {
        let is_printable = character.is_ascii() && !character.is_ascii_control();
        if is_printable && character != '\\' {
            out.push(character)?;
        } else {
            let code = u32::from(character);
            let escape = format!(in alloc; "\\u{{{code:x}}}")?;
            out.push_str(escape.as_str())?;
        }
    }
    Ok(out)
}
