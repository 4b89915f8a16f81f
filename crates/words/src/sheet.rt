// The lines of a sheet: each operation and calculation with its place, its bytes and its words.
use crate::operation::{Calculated, Described, Given};
use crate::text::{Counted, Signed};
use codec::number::Cursor;
use codec::operation::{Operation, decode, decode_calculation};
use engine::configure::register_of;
use engine::outline::{Extent, outline_of};
use std::fmt;

// Where the walk over a sheet stands: the place of the next operation; the last place up to it at which no register was being configured,
// how many operations came from there on, and how many registers are being configured; the register opened last, and what each register
// has been given.
#[derive(Clone, Copy, Default)]
struct Walk {
    place: usize,
    since: usize,
    passed: usize,
    configuring: usize,
    opened: Option<usize>,
    given: [Given; 32],
}

impl Walk {
    // What a register has been given.
    fn given_to(&self, register: usize) -> Given {
        self.given.get(register).copied().unwrap_or_default()
    }

    // Goes past an operation, to the place behind it.
    fn pass(&mut self, o: Operation, behind: usize) {
        let register = register_of(o);
        if let Some(given) = self.given.get_mut(register) {
            *given = given.after(o);
        }
        match o {
            Operation::Open(..) => {
                self.opened = Some(register);
                self.configuring = self.configuring.wrapping_add(1);
            }
            Operation::End(_) => self.configuring = self.configuring.wrapping_sub(1),
            _ => {}
        }
        self.place = behind;
        self.passed = self.passed.wrapping_add(1);
        if self.configuring == 0 {
            self.since = behind;
            self.passed = 0;
        }
    }
}

// What the descriptors of an ended stream come to.
#[derive(Clone, Copy)]
struct Shape(Extent);

impl fmt::Display for Shape {
    fn fmt<W: fmt::Write>(&self, f: &mut fmt::Formatter<W>) -> fmt::Result {
        let dims = Counted(self.0.dims as u64, "dimension", "dimensions");
        let mods = Counted(self.0.mods as u64, "modifier", "modifiers");
        write!(f, ": {dims}, {mods}, ")?;
        if self.0.elements == 0 {
            return f.write_str("no elements");
        }
        let elements = Counted(self.0.elements, "element", "elements");
        write!(
            f,
            "{elements}, first at {}, last at {}",
            Signed(self.0.first.0),
            Signed(self.0.last.0)
        )
    }
}

// How many spaces lead from so many bytes to the words of their line, which stand behind a column of nine.
fn gap(count: usize) -> usize {
    if count <= 9 { 28 - 3 * count } else { 1 }
}

// The lines of a sheet whose place is one from a first to a last.
#[derive(Clone, Copy)]
struct Listing<'a> {
    sheet: &'a [u8],
    first: usize,
    last: usize,
}

impl Listing<'_> {
    // Writes a place, and the bytes from there up to another.
    fn bytes<W: fmt::Write>(
        &self,
        f: &mut fmt::Formatter<W>,
        place: usize,
        behind: usize,
    ) -> fmt::Result {
        write!(f, "{place:>5}  ")?;
        for byte in self.sheet.iter().take(behind).skip(place) {
            write!(f, "{byte:02x} ")?;
        }
        Ok(())
    }

    // Writes the columns of a line in front of its words: the place, and the bytes up to another.
    fn columns<W: fmt::Write>(
        &self,
        f: &mut fmt::Formatter<W>,
        place: usize,
        behind: usize,
    ) -> fmt::Result {
        self.bytes(f, place, behind)?;
        match behind.checked_sub(place) {
            Some(count) => f.write_repeated(" ", gap(count)),
            None => Ok(()),
        }
    }

    // Writes the line of what cannot be read. It has no end that could be named: up to nine bytes are written, or eight and two dots.
    fn unreadable<W: fmt::Write>(
        &self,
        f: &mut fmt::Formatter<W>,
        place: usize,
        words: &str,
    ) -> fmt::Result {
        match self.sheet.len().saturating_sub(place) {
            0 => {
                self.columns(f, place, place)?;
                f.write_str("the sheet ends here\n")
            }
            1..=9 => {
                self.columns(f, place, self.sheet.len())?;
                writeln!(f, "{words}")
            }
            _ => {
                self.bytes(f, place, place.saturating_add(8))?;
                writeln!(f, "..  {words}")
            }
        }
    }

    // Writes the shape of the stream that an operation ends, if it does that: the outline after so many operations of the sheet, from a
    // place on. No register was being configured there, so that all operations on the stream, and on those begun with it, are among these.
    fn shape<W: fmt::Write>(
        &self,
        f: &mut fmt::Formatter<W>,
        walk: &Walk,
        o: Operation,
    ) -> fmt::Result {
        let Operation::End(i) = o else {
            return Ok(());
        };
        let Some(sheet) = self.sheet.get(walk.since..) else {
            return Ok(());
        };
        match outline_of(sheet, walk.passed.wrapping_add(1), i) {
            Some(e) => write!(f, "{}", Shape(e)),
            None => Ok(()),
        }
    }

    // Writes the line of an operation; if it stands before the last place, so that it is not refused, with the shape of a stream that it
    // ends.
    fn operation<W: fmt::Write>(
        &self,
        f: &mut fmt::Formatter<W>,
        walk: &Walk,
        operation: Operation,
        behind: usize,
    ) -> fmt::Result {
        let register = register_of(operation);
        let described = Described {
            operation,
            given: walk.given_to(register),
            here: walk.opened == Some(register),
        };
        self.columns(f, walk.place, behind)?;
        write!(f, "{described}")?;
        if walk.place < self.last {
            self.shape(f, walk, operation)?;
        }
        f.write_str("\n")
    }

    // Writes the line of the calculation at a place, if the place is one of those asked for; the place behind it, if more is to be written.
    fn calculation<W: fmt::Write>(
        &self,
        f: &mut fmt::Formatter<W>,
        place: usize,
    ) -> Result<Option<usize>, fmt::Error> {
        if self.last < place {
            return Ok(None);
        }
        match decode_calculation(self.sheet, Cursor { at: place }) {
            Ok((c, next)) => {
                if self.first <= place {
                    self.columns(f, place, next.at)?;
                    writeln!(f, "  {}", Calculated(c))?;
                }
                Ok(Some(next.at))
            }
            Err(_) => {
                if self.first <= place {
                    self.unreadable(f, place, "  cannot be read")?;
                }
                Ok(None)
            }
        }
    }

    // Writes the lines of a run's calculations, and of bytes after them.
    fn body<W: fmt::Write>(
        &self,
        f: &mut fmt::Formatter<W>,
        count: u64,
        start: usize,
    ) -> fmt::Result {
        let mut place = start;
        for _ in 0..count {
            let Some(next) = self.calculation(f, place)? else {
                return Ok(());
            };
            place = next;
        }
        if self.last < place || place < self.first || self.sheet.len() <= place {
            return Ok(());
        }
        self.unreadable(f, place, "bytes after the run")
    }

    // Writes the line of the operation at which a walk stands, and of a run those of its body, if the places are among those asked for;
    // whether the walk goes on.
    fn step<W: fmt::Write>(
        &self,
        f: &mut fmt::Formatter<W>,
        walk: &mut Walk,
    ) -> Result<bool, fmt::Error> {
        let place = walk.place;
        if self.last < place || self.sheet.len() <= place {
            return Ok(false);
        }
        match decode(self.sheet, Cursor { at: place }) {
            Err(_) => {
                if self.first <= place {
                    self.unreadable(f, place, "cannot be read")?;
                }
                Ok(false)
            }
            Ok((o, next)) => {
                if self.first <= place {
                    self.operation(f, walk, o, next.at)?;
                }
                if let Operation::Run(_, count) = o {
                    self.body(f, count, next.at)?;
                    return Ok(false);
                }
                walk.pass(o, next.at);
                Ok(true)
            }
        }
    }
}

impl fmt::Display for Listing<'_> {
    fn fmt<W: fmt::Write>(&self, f: &mut fmt::Formatter<W>) -> fmt::Result {
        let mut walk = Walk::default();
        for _ in self.sheet {
            if !self.step(f, &mut walk)? {
                break;
            }
        }
        Ok(())
    }
}

// Writes a line for each operation and calculation of a sheet whose place is one from a first to a last, up to one that cannot be read.
// The last is that of a refusal, if there is one, or the sheet's end.
pub fn lines(out: &impl Print, sheet: &[u8], first: usize, last: usize) {
    let _ = out.print(Listing { sheet, first, last });
}
