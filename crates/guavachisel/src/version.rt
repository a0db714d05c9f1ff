// The interface's version for C callers: guavachisel_version of include/guavachisel.h.
ghost use Rattle.std.specs.Prelude.{◌≡◌};
ghost use Rattle.guavachisel.specs.Version.{version};

const VERSION: u64 = 3;

// The version that this library was made for.
#[unsafe(no_mangle)]
pub extern "C" fn guavachisel_version() -> u64
    ensures { result ≡ version }
{
    VERSION
}
