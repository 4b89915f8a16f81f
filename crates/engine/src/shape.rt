// The checks of a shape by itself.
ghost use Rattle.std.specs.Prelude.{◌≡◌, ◌≤◌, take};
ghost use Rattle.std.specs.List.{list_any};
ghost use Rattle.engine.specs.ShapeCheck.{too_large, far_moved, misplaced_in, check_shape};

use crate::rules::{low_or_high, product_over};
use crate::stream::{Modifier, Shape};
use codec::refusal::Refusal;

// Whether a size is out of range.
fn some_too_large(sizes: [u64; 7]) -> bool
    ensures { result ≡ list_any too_large sizes }
{
    sizes.iter().any(|size| 4096 < *size)
}

// Whether a displacement is, among the first `n` modifiers.
fn some_far_moved(modifiers: [Modifier; 8], n: usize) -> bool
    requires { n ≤ 8 }
    ensures { result ≡ list_any far_moved (take n modifiers) }
{
    modifiers[..n].iter().any(|m| 1048576 < m.displacement)
}

// Whether a modifier's target is not below its owner, or its owner is none of the dimensions.
fn misplaced_in(dims: usize, m: Modifier) -> bool
    ensures { result ≡ misplaced_in dims m }
{
    m.owner <= m.target || dims <= m.owner
}

// Whether that is so of one of the first `n` modifiers.
fn some_misplaced(dims: usize, modifiers: [Modifier; 8], n: usize) -> bool
    requires { n ≤ 8 }
    ensures { result ≡ list_any (misplaced_in dims) (take n modifiers) }
{
    modifiers[..n].iter().any(|m| misplaced_in(dims, *m))
}

// The checks of a shape: too many dimensions or modifiers, a field out of range, a modifier out of place or no
// dimension at all, the rule on low and high, the product rule. The coupling is not looked at.
#[tactic(auto, unfolding(crate::specs::ShapeCheck::check_shape, crate::specs::Checks::first_of))]
pub fn check_shape(s: Shape) -> Result<(), Refusal>
    ensures { result ≡ check_shape s }
{
    if 7 < s.dims || 8 < s.mods {
        return Err(Refusal::TooMany);
    }
    if some_too_large(s.sizes) || some_far_moved(s.modifiers, s.mods) {
        return Err(Refusal::OutOfRange);
    }
    if s.dims == 0 || some_misplaced(s.dims, s.modifiers, s.mods) {
        return Err(Refusal::Misplaced);
    }
    if low_or_high(s) {
        return Err(Refusal::LowHigh);
    }
    if product_over(s) {
        return Err(Refusal::Product);
    }
    Ok(())
}
