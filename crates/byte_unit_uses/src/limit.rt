//! Limits from strings, and a rate in bits from a size in bytes.

ghost use Rattle.std.specs.Prelude.{◌≡◌, ◌*◌, ◌/◌, ◌<◌, ℕ, ◌⊎◌, IfSome, SomeIff, false, true};
ghost use Rattle.byte_unit.specs.Sizes.Accepted.{IsAccepted};
ghost use Rattle.byte_unit.specs.Bounds.{size_limit};
ghost use Rattle.byte_unit.specs.declared.Kind.TheVariants.{Byte as InBytes};

use byte_unit::{Bit, Byte};

/// Parses a limit, ignoring case. Returns `None` if the string represents no size.
pub fn limit_ok(text: &str) -> Option<Byte>
    ensures sound { IfSome result (IsAccepted InBytes true text.now) }
    ensures complete { (limit : ℕ) → IsAccepted InBytes true text.now limit → result ≡ Some limit }
{
    Byte::parse_str(text, true).ok()
}

/// Parses a limit, and returns the default if the string represents no size.
pub fn limit_or(text: &str, default: Byte) -> Byte
    ensures complete { (limit : ℕ) → IsAccepted InBytes false text.now limit → result ≡ limit }
    ensures sound { IsAccepted InBytes false text.now result ⊎ (result ≡ default) }
{
    text.parse().unwrap_or(default)
}

/// Returns the rate of a transfer in bits per second, rounded down. Returns `None` if it took no second, or the size is
/// 10^30 bits or more.
pub fn rate(size: Byte, seconds: usize) -> Option<Bit>
    ensures { SomeIff result ((8 * size < size_limit) × (0 < seconds)) (8 * size / seconds) }
{
    Bit::from_u128(8 * size.as_u128())?.divide(seconds)
}
