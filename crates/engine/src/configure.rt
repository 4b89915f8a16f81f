// The configuring operations: their checks in document 01's order, and what they make of a register and of the machine.
ghost use Rattle.std.specs.Prelude.{◌≡◌, ℕ, ◌<◌, ◌≤◌, true};
ghost use Rattle.codec.specs.Headers.{coupling_in_range};
ghost use Rattle.codec.specs.Operations.{operation_in_range};
ghost use Rattle.engine.specs.Checks.{first_of};
ghost use Rattle.engine.specs.Registers.{shape_of};
ghost use Rattle.engine.specs.Configure.{open_checks, dimension_checks, modifier_checks, uncovered, end_checks, opened, patterned, dimensioned, modified, owned, ended, register_of, checks_for, applied, or_refusal, why_not, configured};
ghost use Rattle.engine.specs.Good.{Ranged, Good, AllGood};

use crate::plan::ended;
use crate::register::{Machine, Register, State, fresh};
use crate::rules::{low_or_high, product_over};
use crate::stream;
use codec::amounts::Bytes;
use codec::header::Header;
use codec::operation::{Dimension, Modifier, Operation};
use codec::refusal::Refusal;

// The check of open: 5.
#[tactic(auto, unfolding(crate::specs::Checks::first_of))]
pub(crate) fn check_open(r: Register) -> Result<(), Refusal>
    ensures { result ≡ first_of (open_checks r) }
{
    if r.state == State::Configuring || r.state == State::Open {
        return Err(Refusal::WrongState);
    }
    Ok(())
}

// The checks of a dimension: 5, then 6.
#[tactic(auto, unfolding(crate::specs::Checks::first_of))]
pub(crate) fn check_dimension(r: Register) -> Result<(), Refusal>
    ensures { result ≡ first_of (dimension_checks r) }
{
    if r.state != State::Configuring {
        return Err(Refusal::WrongState);
    }
    if 7 <= r.pattern.shape.dims {
        return Err(Refusal::TooMany);
    }
    Ok(())
}

// The checks of a modifier: 5, then 6, then 7.
#[tactic(auto, unfolding(crate::specs::Checks::first_of))]
pub(crate) fn check_modifier(r: Register, target: u64) -> Result<(), Refusal>
    requires { target < 7 }
    ensures { result ≡ first_of (modifier_checks target r) }
{
    if r.state != State::Configuring {
        return Err(Refusal::WrongState);
    }
    if 8 <= r.pattern.shape.mods {
        return Err(Refusal::TooMany);
    }
    if r.pattern.shape.dims as u64 <= target + 1 {
        return Err(Refusal::Misplaced);
    }
    Ok(())
}

// Whether the coupled dimension is missing.
fn uncovered(s: stream::Shape, coupling: Option<u64>) -> bool
    ensures { result ≡ uncovered s coupling }
{
    match coupling {
        None => false,
        Some(c) => (s.dims as u64) < c,
    }
}

// The checks of end: 5, then 7, then 8, then 9.
#[tactic(auto, unfolding(crate::specs::Checks::first_of))]
pub(crate) fn check_end(r: Register) -> Result<(), Refusal>
    requires { Ranged (shape_of r) }
    ensures { result ≡ first_of (end_checks r) }
{
    if r.state != State::Configuring {
        return Err(Refusal::WrongState);
    }
    let s = r.pattern.shape;
    if s.dims == 0 || uncovered(s, s.coupling) {
        return Err(Refusal::Misplaced);
    }
    if low_or_high(s) {
        return Err(Refusal::LowHigh);
    }
    if product_over(s) {
        return Err(Refusal::Product);
    }
    Ok(())
}

// A register that open turned to being configured.
pub(crate) fn opened(h: Header, base: Bytes) -> Register
    ensures { result ≡ opened h base }
{
    let mut r = fresh();
    r.state = State::Configuring;
    r.width = h.width.bytes();
    r.kind = h.kind;
    r.pattern.shape.coupling = h.coupling;
    r.pattern.base = base;
    r
}

// A pattern with one dimension more.
fn dimensioned(p: stream::Pattern, d: Dimension) -> stream::Pattern
    requires { p.shape.dims < 7 }
    ensures { result ≡ dimensioned d p }
{
    let mut q = p;
    let at = p.shape.dims;
    q.shape.sizes[at] = d.size;
    q.shape.dims = at + 1;
    q.offsets[at] = d.offset;
    q.strides[at] = d.stride;
    q
}

// The modifier, owned by the dimension added last.
fn owned(s: stream::Shape, m: Modifier) -> stream::Modifier
    requires { 1 ≤ s.dims }
    ensures { result ≡ owned m s }
{
    stream::Modifier {
        owner: s.dims - 1,
        target: m.target as usize,
        parameter: m.parameter,
        behaviour: m.behaviour,
        displacement: m.displacement,
    }
}

// A pattern with one modifier more.
fn modified(p: stream::Pattern, m: Modifier) -> stream::Pattern
    requires { (p.shape.mods < 8) × (1 ≤ p.shape.dims) }
    ensures { result ≡ modified m p }
{
    let mut q = p;
    let at = p.shape.mods;
    q.shape.modifiers[at] = owned(p.shape, m);
    q.shape.mods = at + 1;
    q
}

// A register's stream with one dimension more.
pub(crate) fn with_dimension(r: Register, d: Dimension) -> Register
    requires { (shape_of r).dims < 7 }
    ensures { result ≡ patterned (dimensioned d r.pattern) r }
{
    Register {
        pattern: dimensioned(r.pattern, d),
        ..r
    }
}

// A register's stream with one modifier more.
pub(crate) fn with_modifier(r: Register, m: Modifier) -> Register
    requires { ((shape_of r).mods < 8) × (1 ≤ (shape_of r).dims) }
    ensures { result ≡ patterned (modified m r.pattern) r }
{
    Register {
        pattern: modified(r.pattern, m),
        ..r
    }
}

// Any operation on its register: the register after it, or why it is refused; a run changes none here.
#[tactic(auto, unfolding(crate::specs::Checks::first_of))]
pub(crate) fn apply(o: Operation, r: Register) -> Result<Register, Refusal>
    requires { ((vl : ℕ) × Good vl r) × (operation_in_range o ≡ true) }
    ensures { result ≡ or_refusal (first_of (checks_for o r)) (applied o r) }
{
    match o {
        Operation::Open(h, base) => {
            check_open(r)?;
            Ok(opened(h, base))
        }
        Operation::Dimension(d) => {
            check_dimension(r)?;
            Ok(with_dimension(r, d))
        }
        Operation::Modifier(m) => {
            check_modifier(r, m.target)?;
            Ok(with_modifier(r, m))
        }
        Operation::End(_) => {
            check_end(r)?;
            Ok(ended(r))
        }
        Operation::Run(_, _) => Ok(r),
    }
}

// The register that an operation names.
pub fn register_of(o: Operation) -> usize
    ensures { result ≡ register_of o }
{
    match o {
        Operation::Open(h, _) => h.register,
        Operation::Dimension(d) => d.register,
        Operation::Modifier(m) => m.register,
        Operation::End(i) => i,
        Operation::Run(i, _) => i,
    }
}

// An operation on the register that it names: "A refused operation .. alters nothing".
pub(crate) fn configure(o: Operation, machine: &mut Machine) -> Result<(), Refusal>
    requires { ((vl : ℕ) × AllGood vl machine.old) × (operation_in_range o ≡ true) }
    ensures why { result ≡ why_not o machine.old }
    ensures after { machine.new ≡ configured o machine.old }
{
    let i = register_of(o);
    match apply(o, machine.registers[i]) {
        Ok(register) => machine.registers[i] = register,
        Err(refusal) => return Err(refusal),
    }
    Ok(())
}
