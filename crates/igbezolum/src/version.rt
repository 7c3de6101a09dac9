// The version of the library (docs/RULES.md, "The version"), for hosts that meet it as a shared library.
ghost use Rattle.std.specs.Prelude.{◌≡◌};
ghost use Rattle.igbezolum.specs.Version.{version_number};

// 0.11.0; tests/version.sh keeps it that of the header, of rust/Cargo.toml and of CHANGES.md.
const VERSION: u32 = 1100;

// The version as one number.
// Rules out: the number of another version.
pub fn igb_version() -> u32
    ensures { result ≡ version_number }
{
    VERSION
}
