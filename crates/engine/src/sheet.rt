// The operations of a sheet, in order, up to its end, its run or a refusal.
ghost use Rattle.std.specs.Prelude.{◌≡◌, ℕ, ◌<◌, ◌≤◌};
ghost use Rattle.engine.specs.Good.{AllGood};
ghost use Rattle.engine.specs.Sheets.{body_at, names, is_loop_register, ending_of, operations_from};
ghost use Rattle.engine.specs.Bodies.{calculations_of, run_is, prepared_is};

use crate::configure::configure;
use crate::question::has_stream;
use crate::register::Machine;
use crate::run::Placed;
use arrayvec::ArrayVec;
use codec::header::Kind;
use codec::number::Cursor;
use codec::operation::{Operation, decode, decode_calculation};
use codec::refusal::{Refusal, Refused};

// The calculations of a body, in order.
pub(crate) type Steps = ArrayVec<Placed, 16>;

// The run that ends a sheet: its loop register and its body.
#[derive(Drop)]
pub(crate) struct Run {
    pub register: usize,
    pub body: Steps,
}

// The calculations of a body, so many from a place on, and the place behind them.
fn read_body(s: &[u8], n: usize, from: usize) -> Result<(Steps, usize), Refused>
    requires { n ≤ 16 }
    ensures { calculations_of result ≡ body_at s.now n from }
{
    let mut body = ArrayVec::new();
    let mut at = from;
    for _ in 0..n {
        let place = at;
        let (calculation, next) = decode_calculation(s, Cursor { at: place })?;
        body.push(Placed { place, calculation });
        at = next.at;
    }
    Ok((body, at))
}

// Whether a calculation names a register as a source.
fn is_named(register: usize, body: &Steps) -> bool
    ensures { result ≡ names register body.now.items }
{
    body.as_slice().iter().any(|step| register == step.calculation.first
        || register == step.calculation.second)
}

// Whether a register can be the loop register of a body: an open or finished load stream that a calculation names as a source.
fn is_loop_register(m: &Machine, register: usize, body: &Steps) -> bool
    requires { register < 32 }
    ensures { result ≡ is_loop_register register body.now.items m.now }
{
    let r = &m.registers[register];
    has_stream(r.state) && r.kind == Kind::Load && is_named(register, body)
}

// A run's ending: its body read whole, then bytes after it, then 16.
fn run_ending(
    s: &[u8],
    place: usize,
    register: usize,
    n: usize,
    from: usize,
    m: &Machine,
) -> Result<Run, Refused>
    requires { (register < 32) × (n ≤ 16) }
    ensures { run_is result ≡ ending_of s.now place register m.now (body_at s.now n from) }
{
    let (body, at) = read_body(s, n, from)?;
    if at < s.len() {
        return Err(Refused {
            refusal: Refusal::OutOfRange,
            place: at,
        });
    }
    if !is_loop_register(m, register, &body) {
        return Err(Refused {
            refusal: Refusal::LoopRegister,
            place,
        });
    }
    Ok(Run { register, body })
}

// The operations of a sheet on lent registers, at most so many: the run that ends them, if one does.
pub(crate) fn operations(
    s: &[u8],
    most: usize,
    machine: &mut Machine,
) -> Result<Option<Run>, Refused>
    requires { (vl : ℕ) × AllGood vl machine.old }
    ensures { prepared_is result machine.new ≡ operations_from most s.now 0 machine.old }
{
    let mut at = 0;
    for _ in 0..most {
        if s.len() <= at {
            return Ok(None);
        }
        let place = at;
        let (o, next) = decode(s, Cursor { at: place })?;
        if let Operation::Run(register, n) = o {
            let run = run_ending(s, place, register, n as usize, next.at, machine)?;
            return Ok(Some(run));
        }
        match configure(o, machine) {
            Ok(()) => at = next.at,
            Err(refusal) => return Err(Refused { refusal, place }),
        }
    }
    Ok(None)
}
