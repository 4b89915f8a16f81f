// What is made of all lanes of a row: a single lane.
ghost use Rattle.std.specs.Prelude.{◌≡◌, ◌-◌, ◌*◌, ◌^◌, ◌<◌, ◌≤◌, ◌&&◌, ◌==◌};
ghost use mathlib.Core.List.{foldl};
ghost use Rattle.engine.specs.Memory.{lanes_from};
ghost use Rattle.engine.specs.Lanes.{lane, extreme, first_at, folded, outcome_count, wants_lanes};

use crate::lane::lane;
use crate::memory::load;
use codec::operation::{Action, Fold, Task};

// How many lanes the destination takes where each source has `n`.
pub(crate) fn outcome_count(task: Task, n: usize) -> usize
    ensures { result ≡ outcome_count task n }
{
    match task {
        Task::Each(_) => n,
        Task::All(_) => 1,
    }
}

// Whether a fold is of one lane at least.
fn wants_lanes(fold: Fold) -> bool
    ensures { result ≡ wants_lanes (Task.All fold) }
{
    matches!(fold, Fold::Smallest | Fold::Largest | Fold::FirstLargest)
}

// Whether a calculation on `n` lanes lacks the lane that it wants: 18.
pub(crate) fn lacks_lanes(task: Task, n: usize) -> bool
    ensures { result ≡ (wants_lanes task && n == 0) }
{
    match task {
        Task::Each(_) => false,
        Task::All(fold) => wants_lanes(fold) && n == 0,
    }
}

// The action on `start` and lane `from` of the first `n`, on that and the lane behind it, and so on to the last.
fn taken_through(
    action: Action,
    width: u64,
    from: usize,
    n: usize,
    lanes: &[u8; 64],
    start: u64,
) -> u64
    requires le_width { ((1 ≤ width) × (width ≤ 8)) × ((from ≤ n) × (n * width ≤ 64)) }
    requires start_bound { start < 2 ^ (8 * width) }
    ensures { (result ≡ foldl (lane action (8 * width)) start (lanes_from lanes.now width (from * width) (n - from))) × (result < 2 ^ (8 * width)) }
{
    let mut left = start;
    for k in from..n {
        let x = load(lanes, k * (width as usize), width);
        left = lane(action, width, left, x);
    }
    left
}

// The lane that is left of the first `n`, taken two by two; 0 of none.
fn extreme_lane(action: Action, width: u64, n: usize, lanes: &[u8; 64]) -> u64
    requires { ((1 ≤ width) × (width ≤ 8)) × (n * width ≤ 64) }
    ensures { (result ≡ extreme action (8 * width) (lanes_from lanes.now width 0 n)) × (result < 2 ^ (8 * width)) }
{
    if n == 0 {
        return 0;
    }
    let first = load(lanes, 0, width);
    taken_through(action, width, 1, n, lanes, first)
}

// The first of `n` lanes that is `x`; `n` if none is.
fn first_at(x: u64, width: u64, n: usize, lanes: &[u8; 64]) -> usize
    requires { ((1 ≤ width) × (width ≤ 8)) × (n * width ≤ 64) }
    ensures { (result ≡ first_at x (lanes_from lanes.now width 0 n)) × (result ≤ n) }
{
    for k in 0..n {
        let y = load(lanes, k * (width as usize), width);
        if y == x {
            return k;
        }
    }
    n
}

// The fold of the first `n` lanes of a register.
pub(crate) fn fold_lanes(fold: Fold, width: u64, n: usize, lanes: &[u8; 64]) -> u64
    requires { ((1 ≤ width) × (width ≤ 8)) × (n * width ≤ 64) }
    ensures { (result ≡ folded fold (8 * width) (lanes_from lanes.now width 0 n)) × (result < 2 ^ (8 * width)) }
{
    match fold {
        Fold::Sum => taken_through(Action::Add, width, 0, n, lanes, 0),
        Fold::Smallest => extreme_lane(Action::Smaller, width, n, lanes),
        Fold::Largest => extreme_lane(Action::Larger, width, n, lanes),
        Fold::FirstLargest => {
            let largest = extreme_lane(Action::Larger, width, n, lanes);
            first_at(largest, width, n, lanes) as u64
        }
    }
}
