// Refusal 14 in words: which lane fell outside memory, and where it lies.
ghost use Rattle.std.specs.Prelude.{◌≡◌, Some};
ghost use Rattle.engine.specs.Registers.{reg};
ghost use Rattle.engine.specs.Blame.{operand_in};
ghost use Rattle.words.specs.Outside.{lane_at, address_told};

use crate::text::Signed;
use codec::amounts::Bytes;
use codec::number::Cursor;
use codec::operation::{Calculation, decode_calculation};
use codec::refusal::Role;
use engine::outline::element_of;
use engine::register::Machine;
use std::fmt;

// The register that a calculation names as an operand.
fn named(c: Calculation, role: Role) -> usize
    ensures { result ≡ operand_in c role }
{
    match role {
        Role::First => c.first,
        Role::Second => c.second,
        Role::Destination => c.destination,
    }
}

// How many stops a register's stream has gone past; 0 if there is no such register.
fn moved(m: Machine, register: usize) -> u64
    ensures { result ≡ (reg m register).moved }
{
    match m.registers.get(register) {
        Some(r) => r.moved,
        None => 0,
    }
}

// Where a lane lies that the calculation at a place of a sheet would move: the element at the stop so many behind those that the
// operand's stream has gone past.
pub(crate) fn lane_at(
    sheet: &[u8],
    m: Machine,
    place: usize,
    lane: usize,
    role: Role,
) -> Option<Bytes>
    ensures { result ≡ lane_at sheet.now m place lane role }
{
    let Ok((c, next)) = decode_calculation(sheet, Cursor { at: place }) else {
        return None;
    };
    let i = named(c, role);
    let n = moved(m, i).wrapping_add(lane as u64);
    element_of(sheet, sheet.len(), i, n)
}

pub(crate) fn operand(role: Role) -> &'static str {
    match role {
        Role::First => "first source",
        Role::Second => "second source",
        Role::Destination => "destination",
    }
}

// An address between commas, if there is one.
#[derive(Clone, Copy)]
pub(crate) struct AtAddress(pub(crate) Option<Bytes>);

impl fmt::Display for AtAddress {
    ghost output = { λ l. Some (address_told l.0) };

    fn fmt<W: fmt::Write>(&self, f: &mut fmt::Formatter<W>) -> fmt::Result {
        match self.0 {
            None => Ok(()),
            Some(a) => write!(f, ", at address {},", Signed(a.0)),
        }
    }
}
