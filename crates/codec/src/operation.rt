// The operations of a sheet and the calculations of its run, decoded.
ghost use Rattle.std.specs.Prelude.{◌≡◌, MatchResult};
ghost use Rattle.codec.specs.Numbers.{number_at, signed_at};
ghost use Rattle.codec.specs.Refusals.{err_at};
ghost use Rattle.codec.specs.Operations.{IsRead, IsUnread, up_to, is_reach, parameter_coded, behaviour_coded, action_coded, fold_coded, task_coded, has_one_source, open_at, dimension_at, modifier_at, end_at, run_at, operation_at, calculation_at};

use crate::amounts::{Bytes, Elements};
use crate::header::{Header, header_of};
use crate::number::Cursor;
use crate::refusal::{Refusal, Refused};

// A dimension of a register's stream: a byte offset, how many indices, and a stride in elements.
#[derive(Clone, Copy, Debug, PartialEq, Eq)]
pub struct Dimension {
    pub register: usize,
    pub offset: Bytes,
    pub size: u64,
    pub stride: Elements,
}

// Which parameter of its target a modifier changes.
#[derive(Clone, Copy, Debug, PartialEq, Eq)]
pub enum Parameter {
    Size,
    Offset,
    Stride,
}

// Whether a modifier adds or subtracts.
#[derive(Clone, Copy, Debug, PartialEq, Eq)]
pub enum Behaviour {
    Add,
    Subtract,
}

// A modifier; the target field is 0 to 6, for dimension 1 to 7.
#[derive(Clone, Copy, Debug, PartialEq, Eq)]
pub struct Modifier {
    pub register: usize,
    pub target: u64,
    pub parameter: Parameter,
    pub behaviour: Behaviour,
    pub displacement: u64,
}

// An operation of a sheet. Of a run, the loop register and the count of calculations that follow.
#[derive(Clone, Copy, Debug, PartialEq, Eq)]
pub enum Operation {
    Open(Header, Bytes),
    Dimension(Dimension),
    Modifier(Modifier),
    End(usize),
    Run(usize, u64),
}

// What is done to two lanes.
#[derive(Clone, Copy, Debug, PartialEq, Eq)]
pub enum Action {
    Copy,
    Add,
    Subtract,
    And,
    Or,
    Xor,
    Smaller,
    Larger,
}

// What is made of all lanes of one source: a single lane.
#[derive(Clone, Copy, Debug, PartialEq, Eq)]
pub enum Fold {
    Sum,
    Smallest,
    Largest,
    FirstLargest,
}

// What a calculation does: an action lane by lane, or a fold over all lanes of one source.
#[derive(Clone, Copy, Debug, PartialEq, Eq)]
pub enum Task {
    Each(Action),
    All(Fold),
}

// A calculation of a run's body.
#[derive(Clone, Copy, Debug, PartialEq, Eq)]
pub struct Calculation {
    pub task: Task,
    pub destination: usize,
    pub first: usize,
    pub second: usize,
}

// The codes are read by functions with a name: a From would not say that a code which none has is read as the last.
impl Parameter {
    // The parameter of a code; codes above 2 are read as 2.
    pub fn coded(code: u64) -> Parameter
        ensures { result ≡ parameter_coded code }
    {
        match code {
            0 => Parameter::Size,
            1 => Parameter::Offset,
            _ => Parameter::Stride,
        }
    }
}

impl Behaviour {
    // The behaviour of a code; codes above 1 are read as 1.
    pub fn coded(code: u64) -> Behaviour
        ensures { result ≡ behaviour_coded code }
    {
        match code {
            0 => Behaviour::Add,
            _ => Behaviour::Subtract,
        }
    }
}

impl Action {
    // The action of a code; codes above 7 are read as 7.
    pub fn coded(code: u64) -> Action
        ensures { result ≡ action_coded code }
    {
        match code {
            0 => Action::Copy,
            1 => Action::Add,
            2 => Action::Subtract,
            3 => Action::And,
            4 => Action::Or,
            5 => Action::Xor,
            6 => Action::Smaller,
            _ => Action::Larger,
        }
    }
}

impl Fold {
    // The fold of a code, 8 to 11; any other code is read as 11.
    pub fn coded(code: u64) -> Fold
        ensures { result ≡ fold_coded code }
    {
        match code {
            8 => Fold::Sum,
            9 => Fold::Smallest,
            10 => Fold::Largest,
            _ => Fold::FirstLargest,
        }
    }
}

impl Task {
    // What a calculation of a code does: lane by lane up to 7, over all lanes above.
    pub fn coded(code: u64) -> Task
        ensures { result ≡ task_coded code }
    {
        if code <= 7 {
            Task::Each(Action::coded(code))
        } else {
            Task::All(Fold::coded(code))
        }
    }
}

// Whether an offset or a stride is in its range.
pub fn in_reach(z: i64) -> bool
    ensures { result ≡ is_reach z }
{
    -1048576 <= z && z <= 1048576
}

// Whether a calculation of a code has one source only: a copy, or one over all lanes.
pub(crate) fn has_one_source(code: u64) -> bool
    ensures { result ≡ has_one_source code }
{
    code == 0 || 7 < code
}

// What reads an operation or a calculation of a sheet; the place of its refusals is its first byte.
#[derive(Clone, Copy)]
struct Reader<'a> {
    sheet: &'a [u8],
    place: usize,
}

impl Reader<'_> {
    fn refused(self, refusal: Refusal) -> Refused
        ensures { result ≡ record { refusal = refusal; place = self.entry.place } }
    {
        Refused {
            refusal,
            place: self.place,
        }
    }

    // The number at the cursor, which is at most so much: none is refused with 1, a larger one with 2.
    fn number(self, c: Cursor, most: u64) -> Result<(u64, Cursor), Refused>
        ensures { MatchResult result (IsRead (number_at self.entry.sheet.now c.at) (up_to most)) (IsUnread (number_at self.entry.sheet.now c.at) (up_to most) self.entry.place) }
    {
        let Some((v, next)) = c.number(self.sheet) else {
            return Err(self.refused(Refusal::BadNumber));
        };
        if most < v {
            return Err(self.refused(Refusal::OutOfRange));
        }
        Ok((v, next))
    }

    // The signed number at the cursor, an offset or a stride: none is refused with 1, one out of its range with 2.
    fn reach(self, c: Cursor) -> Result<(i64, Cursor), Refused>
        ensures { MatchResult result (IsRead (signed_at self.entry.sheet.now c.at) is_reach) (IsUnread (signed_at self.entry.sheet.now c.at) is_reach self.entry.place) }
    {
        let Some((z, next)) = c.signed(self.sheet) else {
            return Err(self.refused(Refusal::BadNumber));
        };
        if !in_reach(z) {
            return Err(self.refused(Refusal::OutOfRange));
        }
        Ok((z, next))
    }

    // 1, open: header word, base. Both are read before the word is looked at.
    #[tactic(auto, unfolding(crate::specs::Operations::open_at))]
    fn open(self, c: Cursor) -> Result<(Operation, Cursor), Refused>
        ensures { result ≡ open_at self.entry.sheet.now (err_at self.entry.place) c.at }
    {
        let Some((word, c1)) = c.number(self.sheet) else {
            return Err(self.refused(Refusal::BadNumber));
        };
        let (base, c2) = self.number(c1, 1048576)?;
        match header_of(word as u32) {
            Ok(header) => Ok((Operation::Open(header, Bytes(base as i64)), c2)),
            Err(refusal) => Err(self.refused(refusal)),
        }
    }

    // 2, dimension: register, offset, size, stride.
    #[tactic(auto, unfolding(crate::specs::Operations::dimension_at))]
    fn dimension(self, c: Cursor) -> Result<(Operation, Cursor), Refused>
        ensures { result ≡ dimension_at self.entry.sheet.now (err_at self.entry.place) c.at }
    {
        let (register, c1) = self.number(c, 31)?;
        let (offset, c2) = self.reach(c1)?;
        let (size, c3) = self.number(c2, 4096)?;
        let (stride, c4) = self.reach(c3)?;
        let dimension = Dimension {
            register: register as usize,
            offset: Bytes(offset),
            size,
            stride: Elements(stride),
        };
        Ok((Operation::Dimension(dimension), c4))
    }

    // 3, modifier: register, target field, parameter, behaviour, displacement.
    #[tactic(auto, unfolding(crate::specs::Operations::modifier_at))]
    fn modifier(self, c: Cursor) -> Result<(Operation, Cursor), Refused>
        ensures { result ≡ modifier_at self.entry.sheet.now (err_at self.entry.place) c.at }
    {
        let (register, c1) = self.number(c, 31)?;
        let (target, c2) = self.number(c1, 6)?;
        let (parameter, c3) = self.number(c2, 2)?;
        let (behaviour, c4) = self.number(c3, 1)?;
        let (displacement, c5) = self.number(c4, 1048576)?;
        let modifier = Modifier {
            register: register as usize,
            target,
            parameter: Parameter::coded(parameter),
            behaviour: Behaviour::coded(behaviour),
            displacement,
        };
        Ok((Operation::Modifier(modifier), c5))
    }

    // 4, end: register.
    #[tactic(auto, unfolding(crate::specs::Operations::end_at))]
    fn end(self, c: Cursor) -> Result<(Operation, Cursor), Refused>
        ensures { result ≡ end_at self.entry.sheet.now (err_at self.entry.place) c.at }
    {
        let (register, c1) = self.number(c, 31)?;
        Ok((Operation::End(register as usize), c1))
    }

    // 5, run: loop register, count; the calculations follow.
    #[tactic(auto, unfolding(crate::specs::Operations::run_at))]
    fn run(self, c: Cursor) -> Result<(Operation, Cursor), Refused>
        ensures { result ≡ run_at self.entry.sheet.now (err_at self.entry.place) c.at }
    {
        let (looped, c1) = self.number(c, 31)?;
        let (count, c2) = self.number(c1, 16)?;
        if count < 1 {
            return Err(self.refused(Refusal::OutOfRange));
        }
        Ok((Operation::Run(looped as usize, count), c2))
    }
}

// The operation at the cursor. The place of its refusals is its first byte.
#[tactic(auto, unfolding(crate::specs::Operations::operation_at))]
pub fn decode(s: &[u8], c: Cursor) -> Result<(Operation, Cursor), Refused>
    ensures { result ≡ operation_at s.now c.at }
{
    let reader = Reader {
        sheet: s,
        place: c.at,
    };
    let Some((kind, next)) = c.number(s) else {
        return Err(reader.refused(Refusal::BadNumber));
    };
    match kind {
        1 => reader.open(next),
        2 => reader.dimension(next),
        3 => reader.modifier(next),
        4 => reader.end(next),
        5 => reader.run(next),
        _ => Err(reader.refused(Refusal::OutOfRange)),
    }
}

// The calculation at the cursor. The place of its refusals is its first byte.
#[tactic(auto, unfolding(crate::specs::Operations::calculation_at))]
pub fn decode_calculation(s: &[u8], c: Cursor) -> Result<(Calculation, Cursor), Refused>
    ensures { result ≡ calculation_at s.now c.at }
{
    let reader = Reader {
        sheet: s,
        place: c.at,
    };
    let (code, c1) = reader.number(c, 11)?;
    let (destination, c2) = reader.number(c1, 31)?;
    let (first, c3) = reader.number(c2, 31)?;
    let (second, c4) = reader.number(c3, 31)?;
    if has_one_source(code) && second != first {
        return Err(reader.refused(Refusal::OutOfRange));
    }
    let calculation = Calculation {
        task: Task::coded(code),
        destination: destination as usize,
        first: first as usize,
        second: second as usize,
    };
    Ok((calculation, c4))
}
