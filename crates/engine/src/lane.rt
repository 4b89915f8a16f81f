// What a calculation does to two lanes: numbers of `width` bytes.
ghost use Rattle.std.specs.Prelude.{◌≡◌, ◌-◌, ◌*◌, ◌^◌, ◌<◌, ◌≤◌};
ghost use Rattle.engine.specs.Lanes.{raised, lane};

use codec::operation::Action;

// All bits of `width` bytes set.
fn mask(width: u64) -> u64
    requires { (1 ≤ width) × (width ≤ 8) }
    ensures { result ≡ 2 ^ (8 * width) - 1 }
{
    u64::MAX >> (64 - 8 * width)
}

// Half the range of `width` bytes: the top bit alone.
fn half(width: u64) -> u64
    requires { (1 ≤ width) × (width ≤ 8) }
    ensures { result ≡ 2 ^ (8 * width - 1) }
{
    1 << (8 * width - 1)
}

// The sum, cut to the width.
fn add_lane(width: u64, a: u64, b: u64) -> u64
    requires { (1 ≤ width) × (width ≤ 8) }
    ensures { result ≡ lane Action.Add (8 * width) a b }
{
    a.wrapping_add(b) & mask(width)
}

// The difference, cut to the width.
fn sub_lane(width: u64, a: u64, b: u64) -> u64
    requires { ((1 ≤ width) × (width ≤ 8)) × ((a < 2 ^ (8 * width)) × (b < 2 ^ (8 * width))) }
    ensures { result ≡ lane Action.Subtract (8 * width) a b }
{
    a.wrapping_sub(b) & mask(width)
}

// A lane moved up by half the range: two's complement order becomes plain order.
fn raise(width: u64, a: u64) -> u64
    requires { (1 ≤ width) × (width ≤ 8) }
    ensures { result ≡ raised (8 * width) a }
{
    add_lane(width, a, half(width))
}

// The smaller, as two's complement.
fn smaller(width: u64, a: u64, b: u64) -> u64
    requires { (1 ≤ width) × (width ≤ 8) }
    ensures { result ≡ lane Action.Smaller (8 * width) a b }
{
    if raise(width, b) < raise(width, a) {
        b
    } else {
        a
    }
}

// The larger, as two's complement.
fn larger(width: u64, a: u64, b: u64) -> u64
    requires { (1 ≤ width) × (width ≤ 8) }
    ensures { result ≡ lane Action.Larger (8 * width) a b }
{
    if raise(width, a) < raise(width, b) {
        b
    } else {
        a
    }
}

// The action on two lanes.
pub(crate) fn lane(action: Action, width: u64, a: u64, b: u64) -> u64
    requires { ((1 ≤ width) × (width ≤ 8)) × ((a < 2 ^ (8 * width)) × (b < 2 ^ (8 * width))) }
    ensures { (result ≡ lane action (8 * width) a b) × (result < 2 ^ (8 * width)) }
{
    match action {
        Action::Copy => a,
        Action::Add => add_lane(width, a, b),
        Action::Subtract => sub_lane(width, a, b),
        Action::And => a & b,
        Action::Or => a | b,
        Action::Xor => a ^ b,
        Action::Smaller => smaller(width, a, b),
        Action::Larger => larger(width, a, b),
    }
}
