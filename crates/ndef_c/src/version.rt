//! The version of the library.
ghost use Rattle.std.specs.Prelude.{◌≡◌, ◌+◌, ◌*◌};

/// The first number of the version that the file VERSION has.
pub const MAJOR: u32 = 1;
/// Its second number, 0 to 255.
pub const MINOR: u32 = 1;
/// Its third number, 0 to 255.
pub const PATCH: u32 = 0;

/// The version of the library: the first number in the high 16 bits, the second in the next 8, and the
/// third in the last 8.
#[unsafe(no_mangle)]
pub extern "C" fn ndef_version() -> u32
    ensures { result ≡ 65536 * MAJOR + 256 * MINOR + PATCH }
{
    65536 * MAJOR + 256 * MINOR + PATCH
}
