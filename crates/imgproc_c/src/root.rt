// Exports the square root of a double.
ghost use Rattle.std.specs.Prelude.{◌≡◌};
ghost use Rattle.imgproc.specs.Root.{root_of};

#[unsafe(no_mangle)]
pub extern "C" fn imgproc_root(x: f64) -> f64
    ensures { result ≡ root_of x }
{
    imgproc::root::root(x)
}
