// The next chunk of a stream, looked at: how many elements, where they lie, and where the stream stands behind it. No memory is touched,
// so that a refusal has nothing to undo.
ghost use Rattle.std.specs.Prelude.{◌≡◌, ℕ, ◌+◌, ◌<◌, ◌≤◌, true, false, [], length, take, nat_lt, slice_set};
ghost use Rattle.engine.specs.Chunks.{nothing_at};
ghost use Rattle.engine.specs.Places.{place_at, ends_at, Ready};
ghost use Rattle.engine.specs.Stretches.{progression, joined_in};
ghost use Rattle.engine.specs.Runnings.{place_of, view_of, Near, behind, row_ahead, Looks};

use crate::address::{plus, times};
use crate::leave::leave_row;
use crate::part::Part;
use crate::running::Running;
use crate::stream::{Pattern, Shape};
use crate::walk::Arrival;
use codec::amounts::Bytes;

// A chunk that was looked at: whether there is a stream at all, how many elements, and in how many parts, the first ones of an array.
// Then where the stream stands behind the chunk: whether there is a stop, the height of the flags, the innermost index, and what a running
// register remembers of it. `live` and `found` stand beside the numbers and are no Options around them: a register that is no stream has a
// count too, and a finished one keeps the others.
#[derive(Clone, Copy)]
pub(crate) struct Ahead {
    pub live: bool,
    pub found: bool,
    pub count: usize,
    pub parts: usize,
    pub height: u64,
    pub index: u64,
    pub address: Bytes,
    pub size: u64,
    pub step: Bytes,
}

// Whether a chunk ends where the walk goes on.
fn ends_chunk(shape: &Shape, found: bool, height: u64) -> bool
    ensures { result ≡ ends_at shape.now.coupling found height }
{
    if !found {
        return true;
    }
    match shape.coupling {
        None => false,
        Some(dimension) => dimension < height,
    }
}

// How many elements a part has: as many as are wanted and left of the row; one, where the chunk ends with each.
fn part_size(through: bool, left: u64, wanted: u64) -> u64
    requires { (1 ≤ left) × (1 ≤ wanted) }
    ensures { ((1 ≤ result) × ((result ≤ left) × (result ≤ wanted))) × (through ≡ false → result ≡ 1) }
{
    if through { wanted.min(left) } else { 1 }
}

// Whether the next elements, so many, are of the present row and do not end it.
pub(crate) fn stays(r: Running, most: usize, shape: &Shape) -> bool
    requires { (most ≤ 64) × (r.index ≤ 4096) }
    ensures { result ≡ true → (ends_at shape.now.coupling true 1 ≡ false) × ((1 ≤ most) × (r.index + most < r.size)) }
{
    !ends_chunk(shape, true, 1) && 0 < most && r.index + (most as u64) < r.size
}

// The next elements, so many of the present row, which they do not end.
pub(crate) fn in_row(r: Running, n: usize, parts: &mut [Part; 64]) -> Ahead
    requires { Near r.address r.step × ((n ≤ 64) × (r.index ≤ 4096)) }
    ensures value { result ≡ row_ahead n r }
    ensures first_part { joined_in (take 1 parts.new) ≡ progression r.address.0 r.step.0 n }
    ensures parts_long { length parts.new ≡ 64 }
{
    let from = r.address;
    let step = r.step;
    parts[0] = Part {
        start: from,
        step,
        count: n,
    };
    Ahead {
        live: true,
        found: true,
        count: n,
        parts: 1,
        height: 1,
        index: r.index + (n as u64),
        address: plus(from, times(step, n as u64)),
        size: r.size,
        step,
    }
}

// A chunk of at most so many elements, part by part, from an element on. Along a row only the innermost index and the address move; the
// seven indices are looked at where a row ends.
fn part_by_part(
    r: Running,
    pattern: &Pattern,
    most: usize,
    index: &mut [u64; 7],
    parts: &mut [Part; 64],
) -> Ahead
    requires ready { Ready (view_of pattern.now [] index.old r) × (place_of index.old r ≡ place_at pattern.now r.width (slice_set index.old 0 r.index)) }
    requires most_bound { (most ≤ 64) × (nothing_at pattern.now.shape r.moved ≡ false) }
    ensures looked { (result.live ≡ true) × ((result.parts ≤ 64) × Looks pattern.now index.old r most result.count (joined_in (take result.parts parts.new)) index.new (behind result r)) }
    ensures parts_long { length parts.new ≡ 64 }
{
    let through = !ends_chunk(&pattern.shape, true, 1);
    let mut i = r.index;
    let mut address = r.address;
    let mut size = r.size;
    let mut step = r.step;
    let mut height = r.height;
    let mut count: usize = 0;
    let mut m: usize = 0;
    while count < most {
        let n = part_size(through, size - i, (most - count) as u64);
        parts[m] = Part {
            start: address,
            step,
            count: n as usize,
        };
        m += 1;
        count += n as usize;
        i += n;
        if through && i < size {
            address = plus(address, times(step, n));
            height = 1;
            continue;
        }
        index[0] = i - 1;
        let t = leave_row(pattern, r.width, index, Arrival::Element);
        i = index[0];
        address = t.spot.address;
        size = t.spot.size;
        step = t.spot.step;
        height = t.height;
        if ends_chunk(&pattern.shape, t.found, height) {
            return Ahead {
                live: true,
                found: t.found,
                count,
                parts: m,
                height,
                index: i,
                address,
                size,
                step,
            };
        }
    }
    Ahead {
        live: true,
        found: true,
        count,
        parts: m,
        height,
        index: i,
        address,
        size,
        step,
    }
}

// Past a coupled pass that holds no element: no lanes.
fn past_nothing(r: Running, pattern: &Pattern, index: &mut [u64; 7]) -> Ahead
    requires { Ready (view_of pattern.now [] index.old r) × (nothing_at pattern.now.shape r.moved ≡ true) × (r.size ≡ 0) }
    ensures { (result.live ≡ true) × (result.parts ≡ 0) × ((most : ℕ) → Looks pattern.now index.old r most result.count [] index.new (behind result r)) }
{
    index[0] = r.index;
    let next = leave_row(pattern, r.width, index, Arrival::EmptyPass);
    Ahead {
        live: true,
        found: next.found,
        count: 0,
        parts: 0,
        height: next.height,
        index: index[0],
        address: next.spot.address,
        size: next.spot.size,
        step: next.spot.step,
    }
}

// A chunk of at most so many elements.
pub(crate) fn across(
    r: Running,
    most: usize,
    pattern: &Pattern,
    index: &mut [u64; 7],
    parts: &mut [Part; 64],
) -> Ahead
    requires ready { Ready (view_of pattern.now [] index.old r) × (place_of index.old r ≡ place_at pattern.now r.width (slice_set index.old 0 r.index)) }
    requires most_bound { most ≤ 64 }
    ensures looked { (result.live ≡ true) × ((result.parts ≤ 64) × Looks pattern.now index.old r most result.count (joined_in (take result.parts parts.new)) index.new (behind result r)) }
    ensures parts_long { length parts.new ≡ 64 }
{
    if r.size == 0 {
        return past_nothing(r, pattern, index);
    }
    part_by_part(r, pattern, most, index, parts)
}
