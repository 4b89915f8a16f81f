// The highest dimension in which two stops differ: the number that gives all flags.
ghost use Rattle.std.specs.Prelude.{◌≡◌, ◌≤◌};
ghost use Rattle.engine.specs.Chunks.{differ};

// The highest place, counted from 1, at which u and v differ; 0 if at none.
pub(crate) fn differ(u: [u64; 7], v: [u64; 7]) -> u64
    ensures { (result ≡ differ u v) × (result ≤ 7) }
{
    for d in (0..7).rev() {
        if u[d] != v[d] {
            return d as u64 + 1;
        }
    }
    0
}
