// The version of the library.
ghost use Rattle.std.specs.Prelude.{◌≡◌};
ghost use Rattle.velgrodis.specs.Answers.{version};

#[unsafe(no_mangle)]
pub extern "C" fn vg_version() -> u64
    ensures { result ≡ version }
{
    velgrodis::vg_version()
}
