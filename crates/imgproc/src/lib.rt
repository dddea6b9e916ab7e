// Operators on grey pictures. This file says why a call is refused: the kinds, and their numbers.
#![tactic(auto)]

pub mod grid;
pub mod illumination;
pub mod morphology;
mod pair;
mod reach;
pub mod reading;
pub mod root;
pub mod threshold;

ghost use Rattle.std.specs.Prelude.{◌≡◌};
ghost use Rattle.imgproc.specs.declared.ImgProcError.TheVariants.{Image};
ghost use Rattle.imgproc.specs.Refusals.{error_number};

use image::{LumaError, Refusal};

// Why a call is refused.
#[derive(Clone, Copy, PartialEq, Eq)]
pub enum ImgProcError {
    Image(LumaError),
    DimensionMismatch,
    InvalidKernel,
    InvalidConfiguration,
    WorkspaceTooSmall,
    GridBufferTooSmall,
    WindowTooLarge,
}

impl From<LumaError> for ImgProcError {
    ghost from_gives = { λ e r. r ≡ Image e };

    fn from(error: LumaError) -> ImgProcError {
        ImgProcError::Image(error)
    }
}

impl Refusal for ImgProcError {
    ghost number_of = { error_number };

    fn number(self) -> u32 {
        match self {
            ImgProcError::Image(error) => error.number(),
            ImgProcError::DimensionMismatch => 5,
            ImgProcError::InvalidKernel => 6,
            ImgProcError::InvalidConfiguration => 7,
            ImgProcError::WorkspaceTooSmall => 8,
            ImgProcError::GridBufferTooSmall => 10,
            ImgProcError::WindowTooLarge => 12,
        }
    }
}
