// Takes the square root of an f64, correctly rounded.
ghost use Rattle.std.specs.Prelude.{◌≡◌};
ghost use Rattle.imgproc.specs.Root.{root_of};

// Takes the square root as IEEE 754 has it: of a NaN and of a value below zero a NaN, and of -0.0 -0.0. It gives one NaN
// alone, whatever sign and payload the processor's has.
pub fn root(x: f64) -> f64
    ensures { result ≡ root_of x }
{
    let root = x.sqrt();
    if root.is_nan() { f64::NAN } else { root }
}
