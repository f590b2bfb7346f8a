//! The version in the C API.

ghost use Rattle.std.specs.Prelude.{◌≡◌};
ghost use Rattle.byte_unit_c.specs.Version.{version};

/// Returns the version of the library, 3.0.0, as the number 3,000,000.
#[unsafe(no_mangle)]
pub extern "C" fn byte_unit_version() -> u32
    ensures { result ≡ version }
{
    3_000_000
}
