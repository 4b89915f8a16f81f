// The registers of a calculation as operands, looked at with no memory touched; and after it.
// The hints on inlining bring what a calculation calls into the loop over calculations: without them a copy of short vectors takes a fourth longer.
ghost use Rattle.std.specs.Prelude.{◌≡◌, ◌+◌, ◌^◌, ◌<◌, ◌≤◌, true, false, [], ◌∷◌, length, pos, if◌then◌else◌, Ok};
ghost use Rattle.codec.specs.declared.refusal.Role.TheVariants as role;
ghost use Rattle.engine.specs.Checks.{first_of};
ghost use Rattle.engine.specs.Registers.{is_open};
ghost use Rattle.engine.specs.Places.{Ready};
ghost use Rattle.engine.specs.Runnings.{view_of, Remembers, listed_in, filled_with, gone_by, afterwards};
ghost use Rattle.engine.specs.Operands.{Taken, outside_of};

use crate::ahead::{Ahead, across, in_row, stays};
use crate::part::Part;
use crate::register::State;
use crate::running::{Running, again, moved_on};
use crate::stream::Pattern;
use crate::transfer::check_addresses;
use codec::amounts::Bytes;
use codec::refusal::{Refusal, Role};

// A register that is no open stream: so many lanes, and nothing moves.
pub(crate) fn unmoved(plain: usize) -> Ahead
    ensures { result ≡ record { live = false; found = false; count = plain; parts = 0; height = 0; index = 0; address = record { 0 = pos 0 }; size = 0; step = record { 0 = pos 0 } } }
{
    Ahead {
        live: false,
        found: false,
        count: plain,
        parts: 0,
        height: 0,
        index: 0,
        address: Bytes(0),
        size: 0,
        step: Bytes(0),
    }
}

// A register as an operand: of an open stream at most so many elements of its next chunk, of any other register so many lanes.
#[inline(always)]
fn as_operand(
    r: Running,
    most: usize,
    plain: usize,
    pattern: &Pattern,
    index: &mut [u64; 7],
    parts: &mut [Part; 64],
) -> Ahead
    requires most_bound { most ≤ 64 }
    requires ready { (is_open r.state ≡ true → Ready (view_of pattern.now [] index.old r)) × Remembers pattern.now index.old r }
    ensures { Taken pattern.now index.old r most plain index.new parts.new result }
{
    if r.state != State::Open {
        return unmoved(plain);
    }
    if stays(r, most, &pattern.shape) {
        return in_row(r, most, parts);
    }
    across(again(r), most, pattern, index, parts)
}

// A register as a source: of an open stream at most so many elements of its next chunk, of any other register its valid lanes.
#[inline(always)]
pub(crate) fn as_source(
    r: Running,
    most: usize,
    pattern: &Pattern,
    index: &mut [u64; 7],
    parts: &mut [Part; 64],
) -> Ahead
    requires most_bound { most ≤ 64 }
    requires ready { (is_open r.state ≡ true → Ready (view_of pattern.now [] index.old r)) × Remembers pattern.now index.old r }
    ensures { Taken pattern.now index.old r most r.valid index.new parts.new result }
{
    as_operand(r, most, r.valid as usize, pattern, index, parts)
}

// The second source: the first once more, with the first's parts, if it is the same register.
#[inline(always)]
pub(crate) fn second_source(
    same: bool,
    x: Ahead,
    first: &[u64; 7],
    xs: &[Part; 64],
    r: Running,
    most: usize,
    pattern: &Pattern,
    index: &mut [u64; 7],
    parts: &mut [Part; 64],
) -> Ahead
    requires most_bound { most ≤ 64 }
    requires ready { (is_open r.state ≡ true → Ready (view_of pattern.now [] index.old r)) × Remembers pattern.now index.old r }
    requires first_taken { same ≡ true → Taken pattern.now index.old r most r.valid first.now xs.now x }
    ensures taken { Taken pattern.now index.old r most r.valid index.new (if same then xs.now else parts.new) result }
    ensures parts_long { length parts.new ≡ 64 }
    ensures first_again { same ≡ true → result ≡ x }
{
    if same {
        *index = *first;
        return x;
    }
    as_source(r, most, pattern, index, parts)
}

// A register as a destination of so many lanes: of an open stream at most so many elements of its next chunk.
#[inline(always)]
pub(crate) fn as_destination(
    r: Running,
    n: usize,
    pattern: &Pattern,
    index: &mut [u64; 7],
    parts: &mut [Part; 64],
) -> Ahead
    requires most_bound { n ≤ 64 }
    requires ready { (is_open r.state ≡ true → Ready (view_of pattern.now [] index.old r)) × Remembers pattern.now index.old r }
    ensures { Taken pattern.now index.old r n n index.new parts.new result }
{
    as_operand(r, n, n, pattern, index, parts)
}

// 14: an element that an open stream would move lies outside memory. It names the first lane that does.
#[tactic(auto, unfolding(crate::specs::Checks::first_of))]
#[inline(always)]
pub(crate) fn outside(
    role: Role,
    o: Ahead,
    width: u64,
    len: usize,
    parts: &[Part; 64],
) -> Result<(), Refusal>
    requires { (width ≤ 8) × (o.parts ≤ 64) }
    ensures { result ≡ first_of (outside_of role len width o parts.now ∷ []) }
{
    if !o.live {
        return Ok(());
    }
    match check_addresses(&parts[..o.parts], width, len) {
        None => Ok(()),
        Some(lane) => Err(Refusal::Outside(lane, role)),
    }
}

// The same of the second source, unless it is the first once more.
#[tactic(auto, unfolding(crate::specs::Checks::first_of))]
#[inline(always)]
pub(crate) fn second_outside(
    same: bool,
    o: Ahead,
    width: u64,
    len: usize,
    parts: &[Part; 64],
) -> Result<(), Refusal>
    requires { (width ≤ 8) × (same ≡ false → o.parts ≤ 64) }
    ensures { result ≡ (if same then Ok tt else first_of (outside_of role.Second len width o parts.now ∷ [])) }
{
    if same {
        return Ok(());
    }
    outside(Role::Second, o, width, len, parts)
}

// A register with so many lanes of a width as its content.
pub(crate) fn filled(r: Running, width: u64, n: u64) -> Running
    ensures { result ≡ filled_with width n r }
{
    Running {
        width,
        valid: n,
        ..r
    }
}

// A source after it was read: the chunk of an open stream is its content, and it moved on; any other stays.
pub(crate) fn after_read(r: Running, o: Ahead, width: u64) -> Running
    requires { o.live ≡ true → r.moved + gone_by r o.count < 2 ^ 32 }
    ensures { result ≡ (if o.live then filled_with width o.count (afterwards o r) else afterwards o r) }
{
    if !o.live {
        return r;
    }
    filled(moved_on(r, o), width, o.count as u64)
}

// A destination after it was written: a stream moved on; any other has so many lanes as its content.
pub(crate) fn after_write(r: Running, o: Ahead, width: u64, n: usize) -> Running
    requires { o.live ≡ true → r.moved + gone_by r o.count < 2 ^ 32 }
    ensures { result ≡ (if o.live then afterwards o r else filled_with width n (afterwards o r)) }
{
    if !o.live {
        return filled(r, width, n as u64);
    }
    moved_on(r, o)
}
