//! Tests of the calls of `laws` that return constants: of a unit that has one, of one that has none, and the bounds.
use super::asserting::assert_is;
use byte_unit::{Bit, Byte, Unit, laws};

#[test]
fn constants_by_their_unit(rt: HostRuntime) {
    assert_is(&rt, laws::byte_constant(Unit::GiB), Some(Byte::GIBIBYTE));
    assert_is(&rt, laws::byte_constant(Unit::Bit), None);
    assert_is(&rt, laws::byte_bounds(), (Byte::MIN, Byte::MAX));
    assert_is(&rt, laws::bit_constant(Unit::GiB), Some(Bit::GIBIBYTE));
    assert_is(&rt, laws::bit_constant(Unit::B), None);
    assert_is(&rt, laws::bit_bounds(), (Bit::MIN, Bit::MAX));
}
