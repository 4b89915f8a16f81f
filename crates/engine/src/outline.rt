// The streams of a sheet in outline: what their descriptors come to, for a listing.
ghost use Rattle.std.specs.Prelude.{◌≡◌, ◌≤◌};
ghost use Rattle.engine.specs.Registers.{fresh_machine, reg};
ghost use Rattle.engine.specs.Sheets.{operations_from};
ghost use Rattle.engine.specs.Bodies.{settled_of};
ghost use Rattle.engine.specs.Good.{RangedPattern, Accepted};
ghost use Rattle.engine.specs.Outlines.{extent_of, outline_of, located_in, element_of, Keeps};

use crate::address::address;
use crate::question::has_stream;
use crate::run::set_up;
use crate::stream::Pattern;
use crate::walk::{Arrival, first, next, nth_stop};
use codec::amounts::Bytes;

// What the descriptors of a stream come to: its dimensions and modifiers, how many elements its loops have, and the addresses of
// the first and the last of them (0 if there is none).
#[derive(Clone, Copy)]
pub struct Extent {
    pub dims: usize,
    pub mods: usize,
    pub elements: u64,
    pub first: Bytes,
    pub last: Bytes,
}

// What a register keeps of a stream that was ended: its pattern and the width.
#[derive(Clone, Copy)]
pub(crate) struct Kept {
    pub pattern: Pattern,
    pub width: u64,
}

// The loops walked from the first element to the last.
fn extent_of(p: Pattern, width: u64) -> Extent
    requires { RangedPattern p × (width ≤ 8) × Accepted p.shape }
    ensures { result ≡ extent_of p width }
{
    let shape = &p.shape;
    let mut index: [u64; 7] = [0; 7];
    if !first(shape, &mut index) {
        return Extent {
            dims: shape.dims,
            mods: shape.mods,
            elements: 0,
            first: Bytes(0),
            last: Bytes(0),
        };
    }
    let from = address(&p, width, &index);
    // A walk is no iterator: it moves a lent index, of which the last one that it stood at is wanted.
    let mut position: u64 = 0;
    loop {
        let here = index;
        if !next(shape, &mut index) {
            return Extent {
                dims: shape.dims,
                mods: shape.mods,
                elements: position + 1,
                first: from,
                last: address(&p, width, &here),
            };
        }
        position += 1;
    }
}

// The stream walked from the first stop to the one at a position, counted from 0.
fn located_in(p: Pattern, width: u64, n: u64) -> Option<Bytes>
    requires { RangedPattern p × (width ≤ 8) × Accepted p.shape }
    ensures { result ≡ located_in p width n }
{
    let mut index: [u64; 7] = [0; 7];
    match nth_stop(&p.shape, &mut index, n) {
        Some(Arrival::Element) => Some(address(&p, width, &index)),
        Some(Arrival::EmptyPass) => None,
        None => None,
    }
}

// The stream of a register after at most so many operations of a sheet, from fresh registers, if it was ended. A run is not executed.
fn stream_after(sheet: &[u8], most: usize, register: usize) -> Option<Kept>
    ensures { Keeps (reg (settled_of (operations_from most sheet.now 0 fresh_machine)).machine register) result }
{
    if 31 < register {
        return None;
    }
    let settled = set_up(sheet, most);
    let r = &settled.machine.registers[register];
    if !has_stream(r.state) {
        return None;
    }
    Some(Kept {
        pattern: r.pattern,
        width: r.width,
    })
}

// What the stream of a register comes to after at most so many operations of a sheet, from fresh registers, if it was ended. A run is
// not executed.
pub fn outline_of(sheet: &[u8], most: usize, register: usize) -> Option<Extent>
    ensures { result ≡ outline_of (reg (settled_of (operations_from most sheet.now 0 fresh_machine)).machine register) }
{
    let kept = stream_after(sheet, most, register)?;
    Some(extent_of(kept.pattern, kept.width))
}

// The address of the element at stop `n`, counted from 0, of the stream of a register after at most so many operations of a sheet, from
// fresh registers: none past the last stop, nor where a coupled pass holds no element. A run is not executed.
pub fn element_of(sheet: &[u8], most: usize, register: usize, n: u64) -> Option<Bytes>
    ensures { result ≡ element_of (reg (settled_of (operations_from most sheet.now 0 fresh_machine)).machine register) n }
{
    let kept = stream_after(sheet, most, register)?;
    located_in(kept.pattern, kept.width, n)
}
