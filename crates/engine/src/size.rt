// The size of a dimension while the dimensions outside it stand at given indices.
ghost use Rattle.std.specs.Prelude.{◌≡◌, ℕ, suc, ◌-◌, ◌<◌, ◌≤◌, drop, slice_index};
ghost use Rattle.engine.specs.Loops.{size_at};
ghost use Rattle.engine.specs.Good.{Ranged};

use crate::gain::gains;
use crate::stream::Shape;
use codec::operation::Parameter;

// The size of dimension `d` of a shape, where the dimensions outside it stand at the indices of `index` above `d`: at
// once where there is no modifier.
pub(crate) fn size_at(shape: &Shape, index: &[u64; 7], d: usize) -> u64
    requires { Ranged shape.now × (d < 7) × ((k : ℕ) → slice_index index.now k ≤ 4096) }
    ensures { result ≡ size_at shape.now d (drop (suc d) index.now) }
{
    let size = shape.sizes[d];
    if shape.mods == 0 {
        return size;
    }
    let g = gains(shape, Parameter::Size, index, d);
    (size + g.up).saturating_sub(g.down)
}
