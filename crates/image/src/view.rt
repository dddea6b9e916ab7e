// A grey picture that its slice holds.
ghost use Rattle.std.specs.Prelude.{◌≡◌, ◌+◌, ◌*◌, ◌≤◌, length, MatchResult};
ghost use Rattle.image.specs.Answers.{answered};
ghost use Rattle.image.specs.Layout.{layout_of, Kept};
ghost use Rattle.image.specs.Row.{Hands};
ghost use Rattle.image.specs.Copy.{copy_number, Packs};
ghost use Rattle.image.specs.Plane.{picture, overwritten};

use crate::{CopyError, Geometry, LumaError, copy_row, validate_layout};

// A picture to be read. That its slice holds it is a fact of the type, so nobody checks its layout again.
#[derive(Clone, Copy)]
pub struct Gray8View<'a> {
    pub pixels: &'a [u8],
    pub geometry: Geometry,
    pub ghost kept: { Kept (length pixels.now) geometry },
}

impl<'a> Gray8View<'a> {
    // Checks the layout of a picture.
    pub fn new(pixels: &'a [u8], geometry: Geometry) -> Result<Self, LumaError>
        ensures { MatchResult result
            (λ v. (v.pixels ≡ pixels.entry) × (v.geometry ≡ geometry) × Kept (length pixels.entry.now) geometry)
            (λ e. layout_of (length pixels.entry.now) geometry ≡ Err e) }
    {
        let geometry = validate_layout(pixels.len(), geometry)?;
        Ok(Self { pixels, geometry })
    }

    // Hands out row y, the caller's own bytes where they stand; an empty part where the picture has no such row.
    // `image::row` hands it on and is promised not to fail, so an `Option` would be taken apart there and at each call.
    pub fn row(self, y: usize) -> &'a [u8]
        ensures { Hands self.entry.pixels self.entry.geometry y result }
    {
        if self.geometry.height <= y {
            return &self.pixels[0..0];
        }
        let from = y * self.geometry.stride;
        let to = from + self.geometry.width;
        &self.pixels[from..to]
    }

    // Copies the rows into the workspace, one after another from `at` on.
    fn pack_rows(self, workspace: &mut [u8], at: usize)
        requires { at + self.geometry.width * self.geometry.height ≤ length workspace.old }
        ensures { workspace.new
            ≡ overwritten at (picture self.entry.pixels.now self.entry.geometry) workspace.old }
    {
        let width = self.geometry.width;
        for y in 0..self.geometry.height {
            let to = at + y * width;
            let to_end = to + width;
            copy_row(self.row(y), &mut workspace[to..to_end]);
        }
    }

    // Copies the rows into a packed plane of the workspace, which starts at `at`.
    pub fn pack(self, workspace: &mut [u8], at: usize) -> Result<(), CopyError>
        ensures { Packs self.entry.pixels.now self.entry.geometry at workspace.old
            (answered copy_number result) workspace.new }
    {
        let area = self.geometry.width * self.geometry.height;
        if workspace.len() < at || workspace.len() - at < area {
            return Err(CopyError::WorkspaceTooSmall);
        }
        self.pack_rows(workspace, at);
        Ok(())
    }
}
