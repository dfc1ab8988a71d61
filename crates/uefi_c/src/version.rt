ghost use Rattle.std.specs.Prelude.{◌≡◌};

// The version of the functions, as the header that they belong to has it.
const MAJOR: u32 = 0;

const MINOR: u32 = 1;

const PATCH: u32 = 0;

/// Returns the version: 0x010203 would be 1.2.3.
#[unsafe(no_mangle)]
pub extern "C" fn uefi_formats_version() -> u32
    ensures { result ≡ 0x000100 }
{
    MAJOR << 16 | MINOR << 8 | PATCH
}
