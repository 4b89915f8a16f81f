// The 32 vector registers and their streams.
ghost use Rattle.std.specs.Prelude.{◌≡◌};
ghost use Rattle.engine.specs.Registers.{no_shape, no_pattern, fresh, fresh_machine};

use crate::stream::{Modifier, Pattern, Shape};
use codec::amounts::{Bytes, Elements};
use codec::header::Kind;
use codec::operation::{Behaviour, Parameter};

#[derive(Clone, Copy, PartialEq, Eq)]
pub enum State {
    Plain,
    Configuring,
    Open,
    Finished,
}

// A vector register: its state, its content (width, valid lanes, bytes), and its stream: kind, descriptors, how many stops
// it has gone past (its elements and, if it is coupled, the passes of that dimension that hold none), the index of the next
// one, and the number that gives all flags.
#[derive(Clone, Copy)]
pub struct Register {
    pub state: State,
    pub width: u64,
    pub valid: u64,
    pub lanes: [u8; 64],
    pub kind: Kind,
    pub pattern: Pattern,
    pub moved: u64,
    pub index: [u64; 7],
    pub height: u64,
}

#[derive(Clone, Copy)]
pub struct Machine {
    pub registers: [Register; 32],
}

// No descriptors yet.
pub(crate) fn no_shape() -> Shape
    ensures { result ≡ no_shape }
{
    let none = Modifier {
        owner: 0,
        target: 0,
        parameter: Parameter::Size,
        behaviour: Behaviour::Add,
        displacement: 0,
    };
    Shape {
        dims: 0,
        sizes: [0; 7],
        mods: 0,
        modifiers: [none; 8],
        coupling: None,
    }
}

pub(crate) fn no_pattern() -> Pattern
    ensures { result ≡ no_pattern }
{
    Pattern {
        shape: no_shape(),
        base: Bytes(0),
        offsets: [Bytes(0); 7],
        strides: [Elements(0); 7],
    }
}

// A fresh register: plain, width 1, no valid lanes, all bytes zero.
pub(crate) fn fresh() -> Register
    ensures { result ≡ fresh }
{
    Register {
        state: State::Plain,
        width: 1,
        valid: 0,
        lanes: [0; 64],
        kind: Kind::Load,
        pattern: no_pattern(),
        moved: 0,
        index: [0; 7],
        height: 0,
    }
}

// The machine that a sheet starts with: 32 fresh registers.
pub fn fresh_machine() -> Machine
    ensures { result ≡ fresh_machine }
{
    Machine {
        registers: [fresh(); 32],
    }
}
