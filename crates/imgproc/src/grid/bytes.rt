// Writes one byte for each tile from the numbers that were gathered: the stored thresholds, and the stored skips.
ghost use Rattle.std.specs.Prelude.{◌≡◌, ℕ, ◌+◌, ◌*◌, ◌≤◌, length};
ghost use Rattle.image.specs.Plane.{overwritten};
ghost use Rattle.imgproc.specs.declared.grid.tiles.TileNumbers.{TileNumbers};
ghost use Rattle.imgproc.specs.Tiles.{Proper, threshold_by, skip_by, bytes_around};

use crate::grid::base;
use crate::grid::config::TileThresholdConfig;
use crate::grid::table::TileTable;
use crate::grid::tiles::TileNumbers;

// A rule that makes the byte of a tile from the numbers around it.
pub(crate) trait TileRule: Copy {
    ghost byte_of: { Self → TileNumbers → ℕ };

    fn byte(self, numbers: TileNumbers) -> u8
        requires { Proper numbers }
        ensures { result ≡ byte_of self numbers };
}

// The stored threshold.
#[derive(Clone, Copy)]
pub(crate) struct ThresholdRule(pub TileThresholdConfig);

impl TileRule for ThresholdRule {
    ghost byte_of = { λ r. threshold_by r.0 };

    fn byte(self, numbers: TileNumbers) -> u8 {
        let config = self.0;
        base::stored(numbers.base_by(config.method), config.threshold_offset)
    }
}

// The stored skip, which marks a tile whose contrast is below the floor.
#[derive(Clone, Copy)]
pub(crate) struct SkipRule(pub TileThresholdConfig);

impl TileRule for SkipRule {
    ghost byte_of = { λ r. skip_by r.0 };

    fn byte(self, numbers: TileNumbers) -> u8 {
        u8::from(numbers.maximum - numbers.minimum < self.0.contrast_floor)
    }
}

// Writes the byte of every tile from `to` on, tile row after tile row.
pub(crate) fn write_bytes<R: TileRule>(rule: R, table: TileTable<'_>, bytes: &mut [u8], to: usize)
    requires { to + table.tiles.tiles_x * table.tiles.tiles_y ≤ length bytes.old }
    ensures { bytes.new
        ≡ overwritten to
        (bytes_around (R.byte_of rule)
        table.entry.radius table.entry.tiles.tiles_x table.entry.tiles.tiles_y table.entry.at table.entry.workspace.now)
        bytes.old }
{
    let tiles = table.tiles;
    for t in 0..tiles.tiles_x * tiles.tiles_y {
        let numbers = table.join_around(t % tiles.tiles_x, t / tiles.tiles_x);
        bytes[to + t] = rule.byte(numbers);
    }
}
