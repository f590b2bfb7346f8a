//! Sizes written as literals: what each string is parsed as is proved, so no call of `unwrap` here can fail.
#![tactic(auto, unfolding(byte_unit::proofs::OnLiterals::byte_unit_on_literals))]

ghost use Rattle.std.specs.Prelude.{◌≡◌, ◌*◌, codes, IsErrAnd, true};
ghost use Rattle.byte_unit.specs.Bounds.{scale};
ghost use Rattle.byte_unit.specs.Errors.Meaning.{size_fault};
ghost use Rattle.byte_unit.specs.Errors.Fault.{bad_unit};

use byte_unit::{AdjustedBit, Byte, Decimal, ParseError, Unit, read_size};

/// Returns 20 MB.
pub fn default_limit() -> Byte
    ensures { result ≡ 20000000 }
{
    Byte::parse_str("20 MB", false).unwrap()
}

/// Returns 1.5 KiB, from bytes. That these are UTF-8 is computed too.
pub fn from_bytes() -> Byte
    ensures { result ≡ 1536 }
{
    Byte::parse_bytes(b"1.5 KiB", false).unwrap().unwrap()
}

/// Returns the unit of a kibibit.
pub fn unit() -> Unit
    ensures { result ≡ Unit.Kibit }
{
    Unit::parse_str("Kib", false, true).unwrap()
}

/// Returns a number and its unit, with nothing rounded.
pub fn number_and_unit() -> (Decimal, Unit)
    ensures number { result.0 * 2 ≡ 3 * scale }
    ensures unit { result.1 ≡ Unit.KiB }
{
    read_size("1.5 KiB", false, true).unwrap()
}

/// Returns 20 Mbit in the largest unit that is not above it. The unit takes a lemma more than the size, in
/// `proofs/literal/adjusted_unit/Answers.antt`.
pub fn adjusted_unit() -> AdjustedBit
    ensures size { result.size ≡ 20000000 }
    ensures unit { result.unit ≡ Unit.Mibit }
{
    "20 Mbit".parse().unwrap()
}

/// Returns the error of an unknown unit: no unit begins with the `X`.
pub fn unknown_unit() -> Result<Byte, ParseError>
    ensures { IsErrAnd result (λ error.
        size_fault error ≡ bad_unit 88 (codes "BKMGTPEZYR") true) }
{
    Byte::parse_str("20 XB", false)
}
