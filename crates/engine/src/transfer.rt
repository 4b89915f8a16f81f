// Elements of memory moved to and from the 64 bytes of a register, and lanes combined there. Elements come in parts, each the elements of
// one row.
ghost use Rattle.std.specs.Prelude.{◌≡◌, ◌+◌, ◌*◌, ◌<◌, ◌≤◌, true, length, take, drop, pos};
ghost use Rattle.std.proofs.lemmas.List.Edits.{sets};
ghost use Rattle.engine.specs.Loops.{natural};
ghost use Rattle.engine.specs.Addresses.{inside};
ghost use Rattle.engine.specs.Memory.{value_at, little_endian, lanes_from, joined, packed};
ghost use Rattle.engine.specs.ByteLaws.{Bytewise};
ghost use Rattle.engine.specs.Lanes.{lane, lanewise, outcome};
ghost use Rattle.engine.specs.Stretches.{addresses_in, joined_in, all_within, lane_without, checked_at, fetched_at, stored_at};

use crate::address::{plus, times};
use crate::fold::fold_lanes;
use crate::lane::lane;
use crate::memory::{inside, load, place, store};
use crate::part::Part;
use codec::amounts::Bytes;
use codec::operation::{Action, Task};

// Whether all elements of a part lie inside a memory of `len` bytes: its first and its last do.
fn row_within(part: &Part, width: u64, len: usize) -> bool
    requires { width ≤ 8 }
    ensures { result ≡ all_within len width (addresses_in part.now) }
{
    let Part { start, step, count } = *part;
    count == 0
        || inside(start, width, len)
            && inside(plus(start, times(step, (count - 1) as u64)), width, len)
}

// How many elements of a part stand before the first that lies outside.
fn lane_outside(part: &Part, width: u64, len: usize) -> usize
    requires { width ≤ 8 }
    ensures { (result ≡ lane_without len width (addresses_in part.now)) × (result ≤ part.now.count) }
{
    let mut a = part.start;
    for k in 0..part.count {
        if !inside(a, width, len) {
            return k;
        }
        a = plus(a, part.step);
    }
    part.count
}

// The address check, on the elements of parts: the first lane outside, counted from 0, if there is one.
pub(crate) fn check_addresses(parts: &[Part], width: u64, len: usize) -> Option<usize>
    requires { (length parts.now ≤ 64) × (width ≤ 8) }
    ensures { result ≡ checked_at len width (joined_in parts.now) }
{
    // how many elements the parts before this one have
    let mut passed = 0;
    for part in parts {
        if !row_within(part, width, len) {
            return Some(passed + lane_outside(part, width, len));
        }
        passed += part.count;
    }
    None
}

// Copies `n` bytes, from `a` on, to where `b` is. Whoever copies one learns that they are bytes.
fn copy(from: &[u8], a: usize, n: usize, to: &mut [u8], b: usize)
    requires { (a + n ≤ length from.now) × (b + n ≤ length to.old) }
    ensures { (to.new ≡ sets to.old b (take n (drop a from.now))) × (0 < n → Bytewise from.now) }
{
    // Byte by byte, so that the library needs no `memmove` of whoever links it.
    for k in 0..n {
        to[b + k] = from[a + k];
    }
}

// Whether elements a step apart lie side by side.
fn adjacent(step: Bytes, width: u64) -> bool
    requires { width ≤ 8 }
    ensures { result ≡ true → step.0 ≡ pos width }
{
    step.0 == width as i64
}

// The element at address `a` becomes lane `k`.
fn read_lane(memory: &[u8], a: Bytes, width: u64, lanes: &mut [u8; 64], k: usize)
    requires { (k * width + width ≤ 64) × ((width ≤ 8) × (inside (length memory.now) width a.0 ≡ true)) }
    ensures { lanes.new ≡ sets lanes.old (k * width) (little_endian width (value_at memory.now (natural a.0) width)) }
{
    let x = load(memory, place(a), width);
    let at = k * (width as usize);
    store(lanes, at, width, x);
}

// Lane `k` is written to address `a`.
fn write_lane(memory: &mut [u8], a: Bytes, width: u64, lanes: &[u8; 64], k: usize)
    requires { (k * width + width ≤ 64) × ((width ≤ 8) × (inside (length memory.old) width a.0 ≡ true)) }
    ensures { memory.new ≡ sets memory.old (natural a.0) (little_endian width (value_at lanes.now (k * width) width)) }
{
    let at = k * (width as usize);
    let x = load(lanes, at, width);
    store(memory, place(a), width, x);
}

// The elements of a part become lane `at` of a register and those behind it. Elements side by side are copied at once.
fn read_part(memory: &[u8], part: &Part, width: u64, lanes: &mut [u8; 64], at: usize)
    requires room { ((1 ≤ width) × (width ≤ 8)) × (at * width + part.now.count * width ≤ 64) }
    requires inside { all_within (length memory.now) width (addresses_in part.now) ≡ true }
    ensures { lanes.new ≡ sets lanes.old (at * width) (joined width (fetched_at memory.now width (addresses_in part.now))) }
{
    let Part { start, step, count } = *part;
    if 0 < count && adjacent(step, width) {
        let bytes = count * (width as usize);
        let first = at * (width as usize);
        copy(memory, place(start), bytes, lanes, first);
        return;
    }
    let mut a = start;
    for k in 0..count {
        read_lane(memory, a, width, lanes, at + k);
        a = plus(a, step);
    }
}

// The elements of parts become a register's lanes, one part after the other, zeros behind.
pub(crate) fn read_parts(memory: &[u8], parts: &[Part], width: u64, lanes: &mut [u8; 64])
    requires room { ((1 ≤ width) × (width ≤ 8)) × (length (joined_in parts.now) * width ≤ 64) }
    requires inside { all_within (length memory.now) width (joined_in parts.now) ≡ true }
    ensures { lanes.new ≡ packed width (fetched_at memory.now width (joined_in parts.now)) }
{
    *lanes = [0; 64];
    let mut at = 0;
    for part in parts {
        // read before bytes are written, and so once
        let n = part.count;
        read_part(memory, part, width, lanes, at);
        at += n;
    }
}

// Lane `at` of a register and those behind it are written to the elements of a part.
fn write_part(memory: &mut [u8], part: &Part, width: u64, lanes: &[u8; 64], at: usize)
    requires room { ((1 ≤ width) × (width ≤ 8)) × (at * width + part.now.count * width ≤ 64) }
    requires inside { all_within (length memory.old) width (addresses_in part.now) ≡ true }
    ensures { memory.new ≡ stored_at memory.old width (addresses_in part.now) (lanes_from lanes.now width (at * width) part.now.count) }
{
    let Part { start, step, count } = *part;
    if 0 < count && adjacent(step, width) {
        let bytes = count * (width as usize);
        let first = at * (width as usize);
        copy(lanes, first, bytes, memory, place(start));
        return;
    }
    let mut a = start;
    for k in 0..count {
        write_lane(memory, a, width, lanes, at + k);
        a = plus(a, step);
    }
}

// A register's lanes are written to the elements of parts, one part after the other.
pub(crate) fn write_parts(memory: &mut [u8], parts: &[Part], width: u64, lanes: &[u8; 64])
    requires room { ((1 ≤ width) × (width ≤ 8)) × (length (joined_in parts.now) * width ≤ 64) }
    requires inside { all_within (length memory.old) width (joined_in parts.now) ≡ true }
    ensures { memory.new ≡ stored_at memory.old width (joined_in parts.now) (lanes_from lanes.now width 0 (length (joined_in parts.now))) }
{
    let mut at = 0;
    for part in parts {
        // read before bytes are written, and so once
        let n = part.count;
        write_part(memory, part, width, lanes, at);
        at += n;
    }
}

// The action on the first `n` lanes of two sources, lane by lane, zeros behind. A copy needs no numbers.
fn combine_lanes(
    action: Action,
    width: u64,
    n: usize,
    first: &[u8; 64],
    second: &[u8; 64],
    out: &mut [u8; 64],
)
    requires { ((1 ≤ width) × (width ≤ 8)) × (n * width ≤ 64) }
    ensures { out.new ≡ packed width (lanewise (lane action (8 * width)) (lanes_from first.now width 0 n) (lanes_from second.now width 0 n)) }
{
    *out = [0; 64];
    match action {
        Action::Copy => copy(first, 0, n * (width as usize), out, 0),
        _ => {
            for k in 0..n {
                let at = k * (width as usize);
                let a = load(first, at, width);
                let b = load(second, at, width);
                store(out, at, width, lane(action, width, a, b));
            }
        }
    }
}

// What a calculation does, of the first `n` lanes of two sources: lane by lane, or a single lane over all of the first's, zeros behind.
pub(crate) fn calculate_lanes(
    task: Task,
    width: u64,
    n: usize,
    one: &[u8; 64],
    other: &[u8; 64],
    out: &mut [u8; 64],
)
    requires { ((1 ≤ width) × (width ≤ 8)) × (n * width ≤ 64) }
    ensures { out.new ≡ packed width (outcome task (8 * width) (lanes_from one.now width 0 n) (lanes_from other.now width 0 n)) }
{
    match task {
        Task::Each(action) => combine_lanes(action, width, n, one, other, out),
        Task::All(fold) => {
            *out = [0u8; 64];
            store(out, 0, width, fold_lanes(fold, width, n, one));
        }
    }
}
