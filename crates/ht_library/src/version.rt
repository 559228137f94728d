//! The version of the calls.
ghost use Rattle.std.specs.Prelude.{◌≡◌};

/// The version of these calls, which the header says too.
const VERSION: u32 = 5;

/// The version of these calls. It rises with each change of one of them.
#[unsafe(no_mangle)]
pub extern "C" fn mizgaure_version() -> u32
    ensures { result ≡ 5 }
{
    VERSION
}
