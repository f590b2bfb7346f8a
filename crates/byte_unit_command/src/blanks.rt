//! Fields that a byte or blanks separate.

ghost use Rattle.std.specs.Prelude.{◌≡◌, ◌+◌, ◌-◌, ◌<◌, ◌≤◌, ◌∷◌, ◌&&◌, [], Some, not};
ghost use Rattle.std.specs.Prelude.{cond, drop, length, take, true, IfSome, IfNone};
ghost use Rattle.byte_unit_command.specs.Fields.{EndsFirst, begins_blank as has_blank_first, between_by, blank_fields};
ghost use Rattle.byte_unit_command.specs.Fields.{fields_by, separating_blank_by, is_blank as is_a_blank, columns_by};

use crate::options::Separator;
use byte_unit_stream::end_of;

/// Returns the bytes between two fields: none between blanks, where each field begins with the blanks before it.
#[inline(always)]
pub(crate) fn between(separator: &Separator) -> &[u8]
    ensures { result.now ≡ between_by (Some separator.now) }
{
    match separator {
        Separator::Byte(byte) => std::slice::from_ref(byte),
        Separator::Blanks => &[],
    }
}

/// Returns the number of bytes of the first field, or `None` if there is no other field.
#[inline(always)]
pub(crate) fn end_of_first(separator: Separator, bytes: &[u8]) -> Option<usize>
    ensures some { IfSome result (EndsFirst (Some separator) bytes.now) }
    ensures none { IfNone result (fields_by (Some separator) bytes.now ≡ bytes.now ∷ []) }
{
    match separator {
        Separator::Byte(byte) => end_of(bytes, byte),
        Separator::Blanks => end_of_field(bytes),
    }
}

/// Returns the least number of columns of a size that replaces the field with this number. Without a width, a size
/// between blanks takes the columns of the field.
#[inline(always)]
pub(crate) fn columns_in(
    separator: Option<Separator>,
    width: u16,
    number: u64,
    field: &[u8],
) -> usize
    ensures { result ≡ columns_by separator width number field.now }
{
    match separator {
        Some(Separator::Blanks) if width == 0 => columns_of(number > 1, field),
        _ => width as usize,
    }
}

/// Returns the blank before a field that separates it from the field before it; nothing for the first field, and if
/// fields are not between blanks.
#[inline(always)]
pub(crate) fn separating_blank(separator: Option<Separator>, number: u64, field: &[u8]) -> &[u8]
    ensures { result.now ≡ separating_blank_by separator number field.now }
{
    match (separator, field) {
        (Some(Separator::Blanks), [_, ..]) if number > 1 => &field[..1],
        _ => &[],
    }
}

/// Returns the columns of a field between blanks, without the blank that separates it if it is not the first field.
///
/// They are 0 for a first field that begins with no blank: it is not aligned to the right, so its size is not either.
fn columns_of(later: bool, field: &[u8]) -> usize
    ensures { result ≡ cond later (length field.now - 1)
        (cond (has_blank_first field.now) (length field.now) 0) }
{
    if later {
        return field.len().saturating_sub(1);
    }
    if begins_blank(field) {
        return field.len();
    }
    0
}

/// Returns `true` if there is a blank at the beginning.
fn begins_blank(bytes: &[u8]) -> bool
    ensures { result ≡ has_blank_first bytes.now }
{
    match bytes {
        [] => false,
        [first, ..] => is_blank(*first),
    }
}

/// Returns the number of bytes of the first field between blanks, or `None` if there is no other field.
fn end_of_field(bytes: &[u8]) -> Option<usize>
    ensures some { IfSome result (λ n. (0 < n) × (n < length bytes.now)
        × (blank_fields bytes.now ≡ take n bytes.now ∷ blank_fields (drop n bytes.now))) }
    ensures none { IfNone result (blank_fields bytes.now ≡ bytes.now ∷ []) }
{
    let mut i = 0;
    while bytes.len() - i > 1 {
        if ends_field(bytes[i], bytes[i + 1]) {
            return Some(i + 1);
        }
        i += 1;
    }
    None
}

/// Returns `true` if a field ends after this byte, before the next one.
fn ends_field(byte: u8, next: u8) -> bool
    ensures { result ≡ (not (is_a_blank byte) && is_a_blank next) }
{
    !is_blank(byte) && is_blank(next)
}

/// Returns `true` if the byte is a space or a tab.
fn is_blank(byte: u8) -> bool
    ensures { result ≡ is_a_blank byte }
{
    byte == b' ' || byte == b'\t'
}
