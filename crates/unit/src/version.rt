// The version of the exports. Header and archive agree in major and minor: a struct or a signature that changes raises the minor,
// any other change the patch.
ghost use Rattle.std.specs.Prelude.{◌≡◌};
ghost use Rattle.unit.specs.Version.{version_number};

pub const MAJOR: u32 = 0;

pub const MINOR: u32 = 3;

pub const PATCH: u32 = 2;

// The version as one number.
#[unsafe(no_mangle)]
pub extern "C" fn unit_version() -> u32
    ensures { result ≡ version_number }
{
    number()
}

// The link guard: the header of version 0.3 refers to this name, so that a program whose header is of another version doesn't link.
// It answers the version too.
#[unsafe(no_mangle)]
pub extern "C" fn unit_abi_0_3() -> u32
    ensures { result ≡ version_number }
{
    number()
}

// Major, minor and patch in one number, 8 bits each for the last two.
fn number() -> u32
    ensures { result ≡ version_number }
{
    65536 * MAJOR + 256 * MINOR + PATCH
}
