// The step out of a row.
ghost use Rattle.std.specs.Prelude.{◌≡◌, ℕ, suc, ◌<◌, ◌≤◌, false, [], length, replicate, slice_index_or};
ghost use Rattle.engine.specs.Chunks.{stops};
ghost use Rattle.engine.specs.Registers.{index_of};
ghost use Rattle.engine.specs.Good.{RangedPattern, Accepted};
ghost use Rattle.engine.specs.Walk.{Stop, is_empty};
ghost use Rattle.engine.specs.Places.{Onward};
ghost use Rattle.engine.specs.Runnings.{spotted};

use crate::height::differ;
use crate::place::{Spot, spot_at};
use crate::stream::Pattern;
use crate::walk::{Arrival, next_stop};
use codec::amounts::Bytes;

// Whether there is a further stop, where it lies, and the height of the flags there. `found` stands beside them and is no Option around
// them: where there is no stop, the height is that of all flags and the spot is what a finished register keeps.
#[derive(Clone, Copy)]
pub(crate) struct Leaving {
    pub found: bool,
    pub height: u64,
    pub spot: Spot,
}

// From a stop, an element or a coupled pass that holds none, to the next, wherever the search finds it: its indices take the place of the
// other's, zeros if there is none.
pub(crate) fn leave_row(
    pattern: &Pattern,
    width: u64,
    index: &mut [u64; 7],
    from: Arrival,
) -> Leaving
    requires ranged_pattern { RangedPattern pattern.now × ((width ≤ 8) × Accepted pattern.now.shape) }
    requires stop { Stop pattern.now.shape index.old (is_empty from) }
    ensures by_index { (k : ℕ) → k < length (stops pattern.now.shape) → index.old ≡ index_of (slice_index_or (stops pattern.now.shape) k []) → Onward pattern.now width (suc k) result.found (spotted index.new result.spot) result.height }
    ensures index_after { result.found ≡ false → index.new ≡ replicate 7 0 }
{
    let before = *index;
    let Some(to) = next_stop(&pattern.shape, index, from) else {
        *index = [0; 7];
        return Leaving {
            found: false,
            height: pattern.shape.dims as u64 + 1,
            spot: Spot {
                address: Bytes(0),
                size: 0,
                step: Bytes(0),
            },
        };
    };
    Leaving {
        found: true,
        height: differ(before, *index),
        spot: spot_at(pattern, width, index, to),
    }
}
