// Registers in words.
ghost use Rattle.std.specs.Prelude.{◌≡◌};
ghost use Rattle.words.specs.Registers.{is_plain, is_fresh};

use crate::operation::{kind, letter};
use engine::question::flag;
use engine::register::{Machine, Register, State};
use std::fmt;

fn is_plain(s: State) -> bool
    ensures { result ≡ is_plain s }
{
    matches!(s, State::Plain)
}

// Whether a register is as a sheet finds it: plain, width 1, no valid lanes.
pub fn is_fresh(r: Register) -> bool
    ensures { result ≡ is_fresh r }
{
    is_plain(r.state) && r.width == 1 && r.valid == 0
}

fn state(s: State) -> &'static str {
    match s {
        State::Plain => "plain",
        State::Configuring => "configuring",
        State::Open => "open",
        State::Finished => "finished",
    }
}

// The values of the valid lanes, each with its highest byte first. A byte that a register has no room for is 0: a caller may give any machine.
#[derive(Clone, Copy)]
struct Values<'a> {
    lanes: &'a [u8],
    width: u64,
    valid: u64,
}

impl fmt::Display for Values<'_> {
    fn fmt<W: fmt::Write>(&self, f: &mut fmt::Formatter<W>) -> fmt::Result {
        let mut at = 0usize;
        for _ in 0..self.valid {
            f.write_str(" ")?;
            for k in (0..self.width).rev() {
                let byte = self
                    .lanes
                    .get(at.wrapping_add(k as usize))
                    .copied()
                    .unwrap_or(0);
                write!(f, "{byte:02x}")?;
            }
            at = at.wrapping_add(self.width as usize);
        }
        Ok(())
    }
}

// A mark for each of the seven flags of a register: the dimension's number if it is set, a dash if it is clear, and nothing
// if there is no such flag.
#[derive(Clone, Copy)]
struct Flags<'a> {
    machine: &'a Machine,
    register: usize,
}

impl fmt::Display for Flags<'_> {
    fn fmt<W: fmt::Write>(&self, f: &mut fmt::Formatter<W>) -> fmt::Result {
        for d in 1..8 {
            match flag(*self.machine, self.register, d) {
                Ok(true) => write!(f, "{d}")?,
                Ok(false) => f.write_str("-")?,
                Err(_) => f.write_str(" ")?,
            }
        }
        Ok(())
    }
}

// A register's line: its name and state, and of a stream the kind; the width; of a stream the stops gone past and the flags; the
// valid lanes and their values.
#[derive(Clone, Copy)]
struct Line<'a> {
    machine: &'a Machine,
    number: usize,
    register: &'a Register,
}

impl fmt::Display for Line<'_> {
    fn fmt<W: fmt::Write>(&self, f: &mut fmt::Formatter<W>) -> fmt::Result {
        let r = self.register;
        let width = letter(r.width);
        write!(f, "u{:<2}  {:<12}", self.number, state(r.state))?;
        if is_plain(r.state) {
            write!(f, "      {width:<31}")?;
        } else {
            let flags = Flags {
                machine: self.machine,
                register: self.number,
            };
            write!(
                f,
                "{:<6}{width}{:>9} moved  flags {flags}",
                kind(r.kind),
                r.moved
            )?;
        }
        let lanes = if r.valid == 1 { "lane " } else { "lanes" };
        let values = Values {
            lanes: &r.lanes,
            width: r.width,
            valid: r.valid,
        };
        write!(f, "{:>4} {lanes}{values}", r.valid)
    }
}

// Writes a line for each register that is not fresh.
pub fn registers(out: &impl Print, m: Machine) {
    for (number, register) in m.registers.iter().enumerate() {
        if !is_fresh(*register) {
            let machine = &m;
            let _ = out.println(Line {
                machine,
                number,
                register,
            });
        }
    }
}
