// Operations and calculations in words.
use crate::text::{Counted, Signed};
use codec::amounts::Bytes;
use codec::header::{Header, Kind};
use codec::operation::{
    Action, Behaviour, Calculation, Dimension, Fold, Modifier, Operation, Parameter, Task,
};
use std::fmt;

// How many dimensions and modifiers a register has been given since it was opened.
#[derive(Clone, Copy, Default)]
pub struct Given {
    pub dims: u64,
    pub mods: u64,
}

impl Given {
    // What a register has been given when an operation on it has passed.
    pub(crate) fn after(self, o: Operation) -> Given {
        match o {
            Operation::Open(..) => Given::default(),
            Operation::Dimension(_) => Given {
                dims: self.dims.wrapping_add(1),
                ..self
            },
            Operation::Modifier(_) => Given {
                mods: self.mods.wrapping_add(1),
                ..self
            },
            Operation::End(_) | Operation::Run(..) => self,
        }
    }
}

pub(crate) fn kind(k: Kind) -> &'static str {
    match k {
        Kind::Load => "load",
        Kind::Store => "store",
    }
}

// The letter of a width, which counts bytes.
pub(crate) fn letter(width: u64) -> char {
    match width {
        1 => 'B',
        2 => 'H',
        4 => 'W',
        _ => 'D',
    }
}

fn parameter(p: Parameter) -> &'static str {
    match p {
        Parameter::Size => "size",
        Parameter::Offset => "offset",
        Parameter::Stride => "stride",
    }
}

fn sign(b: Behaviour) -> char {
    match b {
        Behaviour::Add => '+',
        Behaviour::Subtract => '-',
    }
}

// The dimension to which a stream is coupled, if it is.
#[derive(Clone, Copy)]
struct Coupled(Option<u64>);

impl fmt::Display for Coupled {
    fn fmt<W: fmt::Write>(&self, f: &mut fmt::Formatter<W>) -> fmt::Result {
        match self.0 {
            None => Ok(()),
            Some(d) => write!(f, ", coupled to dimension {d}"),
        }
    }
}

// The register that an operation is on, where it is not the one opened last.
#[derive(Clone, Copy)]
struct Of {
    register: usize,
    here: bool,
}

impl fmt::Display for Of {
    fn fmt<W: fmt::Write>(&self, f: &mut fmt::Formatter<W>) -> fmt::Result {
        if self.here {
            return Ok(());
        }
        write!(f, " of u{}", self.register)
    }
}

// The dimension that owns a modifier: the last of those that its register has been given.
#[derive(Clone, Copy)]
struct Owner(u64);

impl fmt::Display for Owner {
    fn fmt<W: fmt::Write>(&self, f: &mut fmt::Formatter<W>) -> fmt::Result {
        match self.0 {
            0 => f.write_str("no dimension yet"),
            dims => write!(f, "dimension {dims}"),
        }
    }
}

// An operation in words, by what its register has been given, and whether that is the one opened last, which is then not named.
#[derive(Clone, Copy)]
pub struct Described {
    pub operation: Operation,
    pub given: Given,
    pub here: bool,
}

impl Described {
    fn open<W: fmt::Write>(f: &mut fmt::Formatter<W>, h: Header, base: Bytes) -> fmt::Result {
        write!(
            f,
            "u{} {} {}, base {}{}",
            h.register,
            kind(h.kind),
            letter(h.width.bytes()),
            Signed(base.0),
            Coupled(h.coupling)
        )
    }

    fn dimension<W: fmt::Write>(self, f: &mut fmt::Formatter<W>, d: Dimension) -> fmt::Result {
        write!(
            f,
            "  dimension {}{}: offset {}, size {}, stride {}",
            self.given.dims.wrapping_add(1),
            self.of(d.register),
            Signed(d.offset.0),
            d.size,
            Signed(d.stride.0)
        )
    }

    fn modifier<W: fmt::Write>(self, f: &mut fmt::Formatter<W>, m: Modifier) -> fmt::Result {
        write!(
            f,
            "  modifier {}{}: {} of dimension {} {} {} x index of {}",
            self.given.mods.wrapping_add(1),
            self.of(m.register),
            parameter(m.parameter),
            m.target.wrapping_add(1),
            sign(m.behaviour),
            m.displacement,
            Owner(self.given.dims)
        )
    }

    fn of(self, register: usize) -> Of {
        Of {
            register,
            here: self.here,
        }
    }
}

impl fmt::Display for Described {
    fn fmt<W: fmt::Write>(&self, f: &mut fmt::Formatter<W>) -> fmt::Result {
        match self.operation {
            Operation::Open(h, base) => Described::open(f, h, base),
            Operation::Dimension(d) => self.dimension(f, d),
            Operation::Modifier(m) => self.modifier(f, m),
            Operation::End(i) => write!(f, "end u{i}"),
            Operation::Run(i, count) => {
                let calculations = Counted(count, "calculation", "calculations");
                write!(f, "run while u{i} is open: {calculations}")
            }
        }
    }
}

// What a fold is of.
fn fold(fold: Fold) -> &'static str {
    match fold {
        Fold::Sum => "sum",
        Fold::Smallest => "signed smallest",
        Fold::Largest => "signed largest",
        Fold::FirstLargest => "lane of the first signed largest",
    }
}

// A calculation in words.
#[derive(Clone, Copy)]
pub struct Calculated(pub Calculation);

impl fmt::Display for Calculated {
    fn fmt<W: fmt::Write>(&self, f: &mut fmt::Formatter<W>) -> fmt::Result {
        let Calculation {
            task,
            destination,
            first,
            second,
        } = self.0;
        write!(f, "u{destination} = ")?;
        match task {
            Task::Each(Action::Copy) => write!(f, "u{first}"),
            Task::Each(Action::Add) => write!(f, "u{first} + u{second}"),
            Task::Each(Action::Subtract) => write!(f, "u{first} - u{second}"),
            Task::Each(Action::And) => write!(f, "u{first} and u{second}"),
            Task::Each(Action::Or) => write!(f, "u{first} or u{second}"),
            Task::Each(Action::Xor) => write!(f, "u{first} xor u{second}"),
            Task::Each(Action::Smaller) => { write!(f, "signed smaller of u{first} and u{second}") }
            Task::Each(Action::Larger) => write!(f, "signed larger of u{first} and u{second}"),
            Task::All(over) => write!(f, "{} of u{first}", fold(over)),
        }
    }
}
