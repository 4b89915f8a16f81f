// The registers of a machine laid out for a run: what changes with every chunk as running registers, and beside it their lanes and indices
// in arrays that can be lent; and joined again behind it. The descriptors stay in the machine.
ghost use Rattle.std.specs.Prelude.{◌≡◌, ℕ, ◌<◌, length};
ghost use Rattle.engine.specs.Good.{Good, AllGood};
ghost use Rattle.engine.specs.Runnings.{view_of, Remembers};
ghost use Rattle.engine.specs.Layouts.{beginning, registers_in, LaidOut};

use crate::place::{Spot, arrival_at, spot_at};
use crate::register::{Machine, Register, State};
use crate::running::Running;
use crate::stream::Pattern;
use codec::amounts::Bytes;

// A register at the start of a run, with what it remembers of its next stop.
fn with_spot(r: &Register, s: Spot) -> Running
    ensures { result ≡ beginning r.now s }
{
    Running {
        state: r.state,
        kind: r.kind,
        width: r.width,
        valid: r.valid,
        moved: r.moved,
        height: r.height,
        index: r.index[0],
        address: s.address,
        size: s.size,
        step: s.step,
    }
}

// A register at the start of a run.
fn started(r: &Register) -> Running
    requires { (vl : ℕ) × Good vl r.now }
    ensures { (view_of r.now.pattern r.now.lanes r.now.index result ≡ r.now) × Remembers r.now.pattern r.now.index result }
{
    if r.state == State::Open {
        let at = arrival_at(&r.pattern.shape, &r.index);
        let here = spot_at(&r.pattern, r.width, &r.index, at);
        return with_spot(r, here);
    }
    let none = Spot {
        address: Bytes(0),
        size: 0,
        step: Bytes(0),
    };
    with_spot(r, none)
}

// The register of a pattern that a running one stands for.
fn stopped(pattern: Pattern, q: Running, lanes: [u8; 64], index: [u64; 7]) -> Register
    ensures { result ≡ view_of pattern lanes index q }
{
    let mut index = index;
    index[0] = q.index;
    Register {
        state: q.state,
        width: q.width,
        valid: q.valid,
        lanes,
        kind: q.kind,
        pattern,
        moved: q.moved,
        index,
        height: q.height,
    }
}

// The registers laid out.
pub(crate) fn lay_out(
    m: &Machine,
    lanes: &mut [[u8; 64]; 32],
    indices: &mut [[u64; 7]; 32],
) -> [Running; 32]
    requires by_index { (vl : ℕ) × AllGood vl m.now }
    requires lanes_len { (length lanes.old ≡ 32) × (length indices.old ≡ 32) }
    ensures laid_out { LaidOut m.now.registers lanes.new indices.new result }
    ensures result_after { registers_in m.now.registers lanes.new indices.new result ≡ m.now.registers }
{
    let none = Spot {
        address: Bytes(0),
        size: 0,
        step: Bytes(0),
    };
    let mut all = [with_spot(&m.registers[0], none); 32];
    for (k, r) in m.registers.iter().enumerate() {
        lanes[k] = r.lanes;
        indices[k] = r.index;
        all[k] = started(r);
    }
    all
}

// The registers joined again: `m` has their descriptors.
pub(crate) fn rejoined(
    m: Machine,
    lanes: &[[u8; 64]; 32],
    indices: &[[u64; 7]; 32],
    all: [Running; 32],
) -> Machine
    requires { LaidOut m.registers lanes.now indices.now all }
    ensures { result.registers ≡ registers_in m.registers lanes.now indices.now all }
{
    let mut registers = m.registers;
    for k in 0..32 {
        registers[k] = stopped(registers[k].pattern, all[k], lanes[k], indices[k]);
    }
    Machine { registers }
}
