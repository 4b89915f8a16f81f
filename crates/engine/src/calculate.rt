// One calculation on three running registers and a lent memory: every check first, then everything moves.
// The hints on inlining bring what a calculation calls into the loop over calculations: without them a copy of short vectors takes a fourth longer.
ghost use Rattle.std.specs.Prelude.{◌≡◌, ◌+◌, ◌*◌, ◌/◌, ◌^◌, ◌<◌, ◌≤◌, true, false, not, ◌&&◌, ◌||◌, length, if◌then◌else◌, ◌==◌, nat_lt};
ghost use Rattle.engine.specs.Good.{IsWidth};
ghost use Rattle.engine.specs.Memory.{lanes_from, packed};
ghost use Rattle.engine.specs.Stretches.{all_within, fetched_at, stored_at};
ghost use Rattle.engine.specs.Runnings.{listed_in, gone_by};
ghost use Rattle.engine.specs.Calculations.{Fit, Within, Cleared, Carries};

use crate::ahead::Ahead;
use crate::fold::{lacks_lanes, outcome_count};
use crate::operand::{
    after_read, after_write, as_destination, as_source, outside, second_outside, second_source,
};
use crate::part::Part;
use crate::running::Running;
use crate::states::{check_states, widths_differ};
use crate::stream::Pattern;
use crate::transfer::{calculate_lanes, read_parts, write_parts};
use codec::operation::Task;
use codec::refusal::{Refusal, Role};

// The three operands of a calculation that is not refused.
#[derive(Clone, Copy)]
pub(crate) struct Operands {
    pub first: Ahead,
    pub second: Ahead,
    pub destination: Ahead,
}

// The three registers after a calculation.
#[derive(Clone, Copy)]
pub(crate) struct Outcome {
    pub first: Running,
    pub second: Running,
    pub destination: Running,
}

// "vector length / width": how many lanes of a width there are.
fn lanes(vl: u64, width: u64) -> usize
    requires { (vl ≤ 64) × IsWidth width }
    ensures { (result ≡ vl / width) × (result ≤ 64) }
{
    (vl / width) as usize
}

// Whether the sources' lanes differ in number, or the `k` lanes of the result exceed the store's chunk: 13.
fn lanes_differ(n: usize, m: usize, k: usize, z: Ahead) -> bool
    ensures { result ≡ (not (n == m) || z.live && nat_lt z.count k) }
{
    n != m || z.live && z.count < k
}

// The checks of a calculation in document 01's order, 18 between 13 and 14: of what it does, on first source `a` of pattern `pa`, second
// source `b` of pattern `pb` and destination `d` of pattern `pd`. The sources are the same register if `same`.
#[inline(always)]
pub(crate) fn check_calculation(
    task: Task,
    vl: u64,
    same: bool,
    a: Running,
    b: Running,
    d: Running,
    len: usize,
    pa: &Pattern,
    pb: &Pattern,
    pd: &Pattern,
    va: &mut [u64; 7],
    vb: &mut [u64; 7],
    vd: &mut [u64; 7],
    xs: &mut [Part; 64],
    ys: &mut [Part; 64],
    zs: &mut [Part; 64],
) -> Result<Operands, Refusal>
    requires vl_range { (8 ≤ vl) × (vl ≤ 64) }
    requires fit { Fit vl pa.now va.old a × (Fit vl pb.now vb.old b × Fit vl pd.now vd.old d) }
    requires alike { same ≡ true → (b ≡ a) × ((pb.now ≡ pa.now) × (vb.old ≡ va.old)) }
    ensures cleared { Cleared task vl len same pa.now pb.now pd.now a b d va.old vb.old vd.old va.new vb.new vd.new xs.new (if same then xs.new else ys.new) zs.new result }
    ensures parts_long { (length xs.new ≡ 64) × ((length ys.new ≡ 64) × (length zs.new ≡ 64)) }
{
    check_states(a, b, d)?;
    if widths_differ(a, b, d) {
        return Err(Refusal::Widths);
    }
    let most = lanes(vl, a.width);
    let x = as_source(a, most, pa, va, xs);
    let n = x.count;
    let y = second_source(same, x, va, xs, b, most, pb, vb, ys);
    let k = outcome_count(task, n);
    let z = as_destination(d, k, pd, vd, zs);
    if lanes_differ(n, y.count, k, z) {
        return Err(Refusal::LaneCounts);
    }
    if lacks_lanes(task, n) {
        return Err(Refusal::NoLanes);
    }
    outside(Role::First, x, a.width, len, xs)?;
    second_outside(same, y, b.width, len, ys)?;
    outside(Role::Destination, z, d.width, len, zs)?;
    Ok(Operands {
        first: x,
        second: y,
        destination: z,
    })
}

// A source read: the chunk of an open stream becomes its lanes.
fn read_source(o: Ahead, width: u64, memory: &[u8], parts: &[Part; 64], lanes: &mut [u8; 64])
    requires room { ((1 ≤ width) × (width ≤ 8)) × (o.live ≡ true → (length (listed_in o parts.now) * width ≤ 64) × (o.parts ≤ 64)) }
    requires inside { o.live ≡ true → all_within (length memory.now) width (listed_in o parts.now) ≡ true }
    ensures { lanes.new ≡ (if o.live then packed width (fetched_at memory.now width (listed_in o parts.now)) else lanes.old) }
{
    if o.live {
        read_parts(memory, &parts[..o.parts], width, lanes);
    }
}

// The second source read: the first once more if it is the same register.
fn read_second(
    same: bool,
    la: &[u8; 64],
    o: Ahead,
    width: u64,
    memory: &[u8],
    parts: &[Part; 64],
    lanes: &mut [u8; 64],
)
    requires room { ((1 ≤ width) × (width ≤ 8)) × (same ≡ false → o.live ≡ true → (length (listed_in o parts.now) * width ≤ 64) × (o.parts ≤ 64)) }
    requires inside { same ≡ false → o.live ≡ true → all_within (length memory.now) width (listed_in o parts.now) ≡ true }
    ensures { lanes.new ≡ (if same then la.now else (if o.live then packed width (fetched_at memory.now width (listed_in o parts.now)) else lanes.old)) }
{
    if same {
        *lanes = *la;
        return;
    }
    if o.live {
        read_parts(memory, &parts[..o.parts], width, lanes);
    }
}

// A destination written: lanes go to memory if it is an open stream; else they are the register's content.
fn write_destination(
    o: Ahead,
    width: u64,
    n: usize,
    out: &[u8; 64],
    memory: &mut [u8],
    parts: &[Part; 64],
    lanes: &mut [u8; 64],
)
    requires room { ((1 ≤ width) × (width ≤ 8)) × (n * width ≤ 64) }
    requires listed { o.live ≡ true → ((length (listed_in o parts.now) ≡ n) × (o.parts ≤ 64)) × (all_within (length memory.old) width (listed_in o parts.now) ≡ true) }
    ensures lanes_after { lanes.new ≡ (if o.live then lanes.old else out.now) }
    ensures memory_after { memory.new ≡ (if o.live then stored_at memory.old width (listed_in o parts.now) (lanes_from out.now width 0 n) else memory.old) }
{
    if !o.live {
        *lanes = *out;
        return;
    }
    write_parts(memory, &parts[..o.parts], width, out);
}

// Everything moves: both sources are read, the lanes are calculated and written, in this order.
#[inline(always)]
pub(crate) fn carry_out(
    task: Task,
    same: bool,
    width: u64,
    a: Running,
    b: Running,
    d: Running,
    x: Ahead,
    y: Ahead,
    z: Ahead,
    xs: &[Part; 64],
    ys: &[Part; 64],
    zs: &[Part; 64],
    la: &mut [u8; 64],
    lb: &mut [u8; 64],
    ld: &mut [u8; 64],
    memory: &mut [u8],
) -> Outcome
    requires within { Within task (length memory.old) width x y z xs.now (if same then xs.now else ys.now) zs.now }
    requires count_bound { (x.live ≡ true → a.moved + gone_by a x.count < 2 ^ 32) × ((y.live ≡ true → b.moved + gone_by b y.count < 2 ^ 32) × (z.live ≡ true → d.moved + gone_by d z.count < 2 ^ 32)) }
    requires alike { same ≡ true → (y ≡ x) × (lb.old ≡ la.old) }
    ensures { Carries task width memory.old a b d x y z xs.now (if same then xs.now else ys.now) zs.now la.old lb.old ld.old result la.new lb.new ld.new memory.new }
{
    let n = x.count;
    let k = outcome_count(task, n);
    read_source(x, width, memory, xs, la);
    read_second(same, la, y, width, memory, ys, lb);
    let mut out = [0u8; 64];
    calculate_lanes(task, width, n, la, lb, &mut out);
    write_destination(z, width, k, &out, memory, zs, ld);
    Outcome {
        first: after_read(a, x, width),
        second: after_read(b, y, width),
        destination: after_write(d, z, width, k),
    }
}
