// The version of the library.
ghost use Rattle.std.specs.Prelude.{◌≡◌};
ghost use Rattle.velgrodis.specs.Answers.{version};

use limits::VERSION;

pub fn vg_version() -> u64
    ensures { result ≡ version }
{
    VERSION
}
