// Carries the number of the calling form in a name. A program refers to the name of the number that it was compiled
// for, so an archive of another calling form does not link. Every changed signature changes the number.
ghost use Rattle.std.specs.Prelude.{◌≡◌};

#[unsafe(no_mangle)]
pub extern "C" fn imgproc_abi_3() -> u32
    ensures { result ≡ 3 }
{
    3
}
