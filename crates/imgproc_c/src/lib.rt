// Exports the libraries to C. A call takes flat parameters, returns 0 or the number of its refusal, and stores its
// values in lent numbers. A refused call leaves every lent number and byte as it was. include/imgproc.h says what a
// caller has to keep.
#![tactic(auto)]

pub mod abi;
mod answers;
pub mod grid;
pub mod illumination;
pub mod morphology;
pub mod picture;
pub mod reading;
pub mod record;
pub mod root;
pub mod threshold;
