// What modifiers add to a parameter of a dimension, and what they take from it, as natural numbers.
ghost use Rattle.std.specs.Prelude.{◌≡◌, ℕ, suc, ◌≤◌, drop, slice_index};
ghost use Rattle.engine.specs.Loops.{modifiers_of};
ghost use Rattle.engine.specs.Gains.{gain};
ghost use Rattle.engine.specs.Good.{Ranged};
ghost use Rattle.codec.specs.declared.operation.Behaviour.TheVariants.{Add, Subtract};

use crate::stream::Shape;
use codec::operation::{Behaviour, Parameter};

// What modifiers add to a parameter of a dimension, and what they take from it.
#[derive(Clone, Copy)]
pub(crate) struct UpDown {
    pub up: u64,
    pub down: u64,
}

// What the modifiers of a shape move parameter `q` of dimension `d` by, at the indices `index`: up by those that add, down by those that
// subtract.
pub(crate) fn gains(shape: &Shape, q: Parameter, index: &[u64; 7], d: usize) -> UpDown
    requires { Ranged shape.now × ((k : ℕ) → slice_index index.now k ≤ 4096) }
    ensures { (result.up ≡ gain q Add d (drop (suc d) index.now) (modifiers_of shape.now)) × (result.down ≡ gain q Subtract d (drop (suc d) index.now) (modifiers_of shape.now)) × (result.up ≤ 34359738368) × (result.down ≤ 34359738368) }
{
    let mut up: u64 = 0;
    let mut down: u64 = 0;
    for m in &shape.modifiers[..shape.mods] {
        if m.target == d && m.parameter == q {
            let by = index[m.owner] * m.displacement;
            match m.behaviour {
                Behaviour::Add => up += by,
                Behaviour::Subtract => down += by,
            }
        }
    }
    UpDown { up, down }
}
