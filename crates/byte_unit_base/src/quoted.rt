//! Texts as messages quote them.

ghost use Rattle.std.specs.Prelude.{◌≡◌, ◌+◌, ◌<◌, ◌≤◌, ◌++◌, length, Some, false, codes, [], if◌then◌else◌};
ghost use Rattle.std.specs.Fmt.{digits, digit_glyph};
ghost use Rattle.std.specs.List.{flat_map};
ghost use Rattle.std.specs.Str.{chars};
ghost use Rattle.byte_unit_base.specs.Errors.PutAfter.{IsPutAfter};
ghost use Rattle.byte_unit_base.specs.Errors.Quoted.{escape, escape_byte, escape_char, is_unseen, quote};
ghost use Rattle.byte_unit_base.specs.Errors.Quoted.{quoted_len as len_of_quoted};

use crate::stop::begins_character;
use std::{fmt, str};

/// The most bytes of a text that a message quotes, so that a message about a long text is short.
const MAX_LEN: usize = 80;

/// The most bytes of a text as a message quotes it: six for each byte, as `\u{1b}`, and two dots.
pub const MAX_QUOTE_LEN: usize = 482;

/// A text that `Display` writes for a message: at most its first 80 bytes, in whole characters, and two dots if there
/// are more.
///
/// Control characters, format characters and separators other than the space are escaped, as `\u{a0}`; if these bytes
/// are not UTF-8, each one that is not printable ASCII is, as `\xff`. So at most 482 bytes are written. Quotes and
/// backslashes are written as they are.
///
/// # Examples
/// ```rust
/// assert_eq!(rt; format!(in alloc; "'{}'", Quoted(b"5\tKB"))?.as_str(), "'5\\u{9}KB'");
/// ```
#[derive(Clone, Copy)]
pub struct Quoted<'a>(pub &'a [u8]);

impl<'a> fmt::Display for Quoted<'a> {
    ghost use Rattle.byte_unit_base.specs.Errors.Quoted.{quote};

    ghost output = { λ text. Some (quote text.0.now) };

    fn fmt<W: fmt::Write>(&self, f: &mut fmt::Formatter<W>) -> fmt::Result {
        f.write_str(quote(self.0, &mut [0; MAX_QUOTE_LEN]))
    }
}

/// Writes a text as [`Quoted`] does, but into a buffer, and returns what is written, at most 482 bytes.
///
/// # Examples
/// ```rust
/// assert_eq!(rt; quote(b"5\tKB", &mut [0; MAX_QUOTE_LEN]), "5\\u{9}KB");
/// ```
pub fn quote<'a>(text: &[u8], buffer: &'a mut [u8; MAX_QUOTE_LEN]) -> &'a str
    ensures text { result.now ≡ quote text.now }
    ensures bound { length result.now ≤ MAX_QUOTE_LEN }
{
    let len = quoted_len(text);
    let end = put_escaped(&text[..len], buffer, 0);
    let end = put_after(dots(len < text.len()), buffer, end);
    str::from_utf8(&buffer[..end]).unwrap()
}

/// Returns the number of bytes of a text that are quoted: at most 80, and of a UTF-8 text as many of these as cut no
/// character.
fn quoted_len(text: &[u8]) -> usize
    ensures len { result ≡ len_of_quoted text.now }
    ensures bound { result ≤ length text.now }
    ensures limit { result ≤ MAX_LEN }
{
    if text.len() <= MAX_LEN {
        return text.len();
    }
    // Of four bytes in a row of a UTF-8 text at least one begins a character: no character has more than four.
    if begins_character(text[MAX_LEN]) {
        MAX_LEN
    } else if begins_character(text[MAX_LEN - 1]) {
        MAX_LEN - 1
    } else if begins_character(text[MAX_LEN - 2]) {
        MAX_LEN - 2
    } else if begins_character(text[MAX_LEN - 3]) {
        MAX_LEN - 3
    } else {
        MAX_LEN
    }
}

/// Returns the two dots after a text that is cut, or nothing.
fn dots(is_cut: bool) -> &'static [u8]
    ensures text { result.now ≡ (if is_cut then codes ".." else []) }
    ensures bound { length result.now ≤ 2 }
{
    if is_cut { b".." } else { b"" }
}

/// Writes bytes as a message has them to a buffer from the index `begin`, and returns the index where they end: by
/// characters if they are UTF-8, and else byte by byte.
fn put_escaped(bytes: &[u8], buffer: &mut [u8], begin: usize) -> usize
    requires { begin + length (escape bytes.now) ≤ length buffer.old }
    ensures { IsPutAfter (escape bytes.now) begin buffer.old buffer.new result }
{
    match str::from_utf8(bytes) {
        Ok(text) => put_chars(text, buffer, begin),
        Err(_) => put_bytes(bytes, buffer, begin),
    }
}

/// Writes a text with what is not seen in it escaped: its control and format characters and its separators.
fn put_chars(text: &str, buffer: &mut [u8], begin: usize) -> usize
    requires { begin + length (flat_map escape_char (chars text.now)) ≤ length buffer.old }
    ensures { IsPutAfter (flat_map escape_char (chars text.now)) begin buffer.old buffer.new result }
{
    let mut end = begin;
    for c in text.chars() {
        end = put_char(c, buffer, end);
    }
    end
}

/// Writes bytes: printable ASCII characters as they are, and any other byte escaped.
fn put_bytes(bytes: &[u8], buffer: &mut [u8], begin: usize) -> usize
    requires { begin + length (flat_map escape_byte bytes.now) ≤ length buffer.old }
    ensures { IsPutAfter (flat_map escape_byte bytes.now) begin buffer.old buffer.new result }
{
    let mut end = begin;
    for byte in bytes {
        end = put_byte(*byte, buffer, end);
    }
    end
}

/// Writes a character, escaped if it is not seen.
fn put_char(c: char, buffer: &mut [u8], begin: usize) -> usize
    requires { begin + length (escape_char c) ≤ length buffer.old }
    ensures { IsPutAfter (escape_char c) begin buffer.old buffer.new result }
{
    if c.is_control() || is_unseen(c) {
        return put_code(c as u32, buffer, begin);
    }
    put_after(c.encode_utf8(&mut [0; 4]).as_bytes(), buffer, begin)
}

/// Writes the code of a character in hexadecimal, between `\u{` and `}`.
fn put_code(code: u32, buffer: &mut [u8], begin: usize) -> usize
    requires { begin + length (codes "\\u{" ++ digits 16 false code ++ codes "}") ≤ length buffer.old }
    ensures { IsPutAfter (codes "\\u{" ++ digits 16 false code ++ codes "}") begin buffer.old buffer.new result }
{
    let digits = put_after(b"\\u{", buffer, begin);
    let end = put_hexadecimal(code, buffer, digits);
    put_after(b"}", buffer, end)
}

/// Writes a byte: a printable ASCII character as it is, and any other byte as `\x` and two hexadecimal digits.
fn put_byte(byte: u8, buffer: &mut [u8], begin: usize) -> usize
    requires { begin + length (escape_byte byte) ≤ length buffer.old }
    ensures { IsPutAfter (escape_byte byte) begin buffer.old buffer.new result }
{
    if matches!(byte, b' '..=b'~') {
        return put_after(&[byte], buffer, begin);
    }
    let high = put_after(b"\\x", buffer, begin);
    let low = put_hexadecimal(u32::from(byte / 16), buffer, high);
    put_hexadecimal(u32::from(byte % 16), buffer, low)
}

/// Writes the hexadecimal digits of a number, in lower case.
fn put_hexadecimal(n: u32, buffer: &mut [u8], begin: usize) -> usize
    requires { begin + length (digits 16 false n) ≤ length buffer.old }
    ensures { IsPutAfter (digits 16 false n) begin buffer.old buffer.new result }
{
    if n < 16 {
        return put_after(&[hexadecimal_digit(n)], buffer, begin);
    }
    let last = put_hexadecimal(n / 16, buffer, begin);
    put_after(&[hexadecimal_digit(n % 16)], buffer, last)
}

/// Returns a hexadecimal digit, in lower case.
fn hexadecimal_digit(digit: u32) -> u8
    requires { digit < 16 }
    ensures { result ≡ digit_glyph false digit }
{
    if digit < 10 {
        b'0' + digit as u8
    } else {
        b'a' + (digit - 10) as u8
    }
}

/// Writes bytes to a buffer from the index `begin`, and returns the index where they end.
fn put_after(bytes: &[u8], buffer: &mut [u8], begin: usize) -> usize
    requires { begin + length bytes.now ≤ length buffer.old }
    ensures { IsPutAfter bytes.now begin buffer.old buffer.new result }
{
    let end = begin + bytes.len();
    buffer[begin..end].copy_from_slice(bytes);
    end
}

/// Returns `true` if the character is a format character (category `Cf` of Unicode 16), or a separator (`Zs`, `Zl` and
/// `Zp`) other than the space.
#[tactic(auto, unfolding(crate::specs::Errors::Quoted::is_unseen))]
fn is_unseen(c: char) -> bool
    ensures { result ≡ is_unseen c }
{
    matches!(
        c,
        '\u{a0}' | '\u{ad}' | '\u{600}'..='\u{605}' | '\u{61c}' | '\u{6dd}' | '\u{70f}' | '\u{890}'..='\u{891}'
        | '\u{8e2}' | '\u{1680}' | '\u{180e}' | '\u{2000}'..='\u{200f}' | '\u{2028}'..='\u{202f}'
        | '\u{205f}'..='\u{2064}' | '\u{2066}'..='\u{206f}' | '\u{3000}' | '\u{feff}' | '\u{fff9}'..='\u{fffb}'
        | '\u{110bd}' | '\u{110cd}' | '\u{13430}'..='\u{1343f}' | '\u{1bca0}'..='\u{1bca3}'
        | '\u{1d173}'..='\u{1d17a}' | '\u{e0001}' | '\u{e0020}'..='\u{e007f}'
    )
}
