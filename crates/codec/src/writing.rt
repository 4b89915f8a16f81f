// Numbers, header words, operations and calculations written into a lent slice.
ghost use Rattle.std.specs.Prelude.{◌≡◌, true, [], ◌++◌, ◌+◌, ◌<◌, ◌≤◌, length, Bool, List, ℕ, Option};
ghost use Rattle.std.specs.Int.Signed.{mag};
ghost use Rattle.codec.specs.Numbers.{number_bytes, unsigned_of};
ghost use Rattle.codec.specs.Headers.{header_in_range, word_of};
ghost use Rattle.codec.specs.Operations.{signed_bytes, dimension_in_range, modifier_in_range, operation_in_range, operation_bytes, calculation_in_range, calculation_bytes, parameter_code, behaviour_code, action_code, fold_code, task_code};
ghost use Rattle.codec.specs.declared.operation.Operation.TheVariants as op;
ghost use Rattle.codec.specs.Writing.{is_number, is_signed, written_to, bytes_after, ready};

use crate::amounts::Bytes;
use crate::header::{Header, header_in_range, word_in_range};
use crate::operation::{
    Action, Behaviour, Calculation, Dimension, Fold, Modifier, Operation, Parameter, Task,
    has_one_source, in_reach,
};
use arrayvec::ArrayVec;
use std::marker::Model;

// Why nothing was written: no room for it, or a field out of range.
#[derive(Clone, Copy, Debug, PartialEq, Eq)]
pub enum Unwritten {
    NoRoom,
    OutOfRange,
}

// Bytes that are ready to be written.
#[derive(Drop)]
struct Text {
    bytes: ArrayVec<u8, 32>,
}

impl Model for Text {
    ghost use Rattle.std.specs.Prelude.{List, ℕ};

    ghost Value = { List ℕ };

    ghost view = { λ t. t.bytes.items };
}

impl Text {
    fn new() -> Text
        ensures { result ≡ [] }
    {
        Text {
            bytes: ArrayVec::new(),
        }
    }

    // The groups of a number more, lowest first, the high bit set on every one but the last.
    fn number(mut self, v: u64) -> Text
        requires { (v < 4294967296) × (length self ≤ 27) }
        ensures { (result ≡ self ++ number_bytes v) × (length result ≤ length self + 5) }
    {
        let mut rest = v;
        while 128 <= rest {
            self.bytes.push((rest % 128 + 128) as u8);
            rest /= 128;
        }
        self.bytes.push(rest as u8);
        self
    }

    // A signed number more.
    fn signed(self, n: i64) -> Text
        requires { (mag n < 2147483648) × (length self ≤ 27) }
        ensures { (result ≡ self ++ signed_bytes n) × (length result ≤ length self + 5) }
    {
        self.number(unsigned_of(n))
    }
}

// How a signed number is written: 2n from 0 on, else -2n-1.
fn unsigned_of(n: i64) -> u64
    requires { mag n < 2147483648 }
    ensures { (result ≡ unsigned_of n) × (result < 4294967296) }
{
    if n < 0 {
        ((-1 - n) as u64) * 2 + 1
    } else {
        (n as u64) * 2
    }
}

// Writes a text, if its fields were in range and there is room for it.
fn put(buf: &mut [u8], at: usize, text: Option<Text>) -> Result<usize, Unwritten>
    ensures { (b : Bool) (bytes : List ℕ) → text ≡ ready b bytes → (result ≡ written_to b bytes at (length buf.old)) × (buf.new ≡ bytes_after b bytes buf.old at) }
{
    let Some(text) = text else {
        return Err(Unwritten::OutOfRange);
    };
    let len = text.bytes.len();
    if buf.len() < at {
        return Err(Unwritten::NoRoom);
    }
    let room = buf.len() - at;
    if room < len {
        return Err(Unwritten::NoRoom);
    }
    buf[at..at + len].copy_from_slice(text.bytes.as_slice());
    Ok(at + len)
}

// The text of a number below 2^32.
fn number_text(v: u64) -> Option<Text>
    ensures { result ≡ ready (is_number v) (number_bytes v) }
{
    if v < 4294967296 {
        Some(Text::new().number(v))
    } else {
        None
    }
}

// The text of a signed number from -2^31 to 2^31 - 1.
fn signed_text(n: i64) -> Option<Text>
    ensures { result ≡ ready (is_signed n) (signed_bytes n) }
{
    if -2147483648 <= n && n < 2147483648 {
        Some(Text::new().signed(n))
    } else {
        None
    }
}

// The text of a header: its word, bits 19-15 and 23-22 zero.
fn header_text(h: Header) -> Option<Text>
    ensures { result ≡ ready (header_in_range h) (number_bytes (word_of h)) }
{
    if header_in_range(h) {
        Some(Text::new().number(word_in_range(h)))
    } else {
        None
    }
}

// Writes a number below 2^32.
pub fn put_number(buf: &mut [u8], at: usize, v: u64) -> Result<usize, Unwritten>
    ensures { (result ≡ written_to (is_number v) (number_bytes v) at (length buf.old)) × (buf.new ≡ bytes_after (is_number v) (number_bytes v) buf.old at) }
{
    put(buf, at, number_text(v))
}

// Writes a signed number from -2^31 to 2^31 - 1.
pub fn put_signed(buf: &mut [u8], at: usize, n: i64) -> Result<usize, Unwritten>
    ensures { (result ≡ written_to (is_signed n) (signed_bytes n) at (length buf.old)) × (buf.new ≡ bytes_after (is_signed n) (signed_bytes n) buf.old at) }
{
    put(buf, at, signed_text(n))
}

// Writes a header as its word, bits 19-15 and 23-22 zero.
pub fn put_header(buf: &mut [u8], at: usize, h: Header) -> Result<usize, Unwritten>
    ensures { (result ≡ written_to (header_in_range h) (number_bytes (word_of h)) at (length buf.old)) × (buf.new ≡ bytes_after (header_in_range h) (number_bytes (word_of h)) buf.old at) }
{
    put(buf, at, header_text(h))
}

// The text of an open: header word, base.
#[tactic(auto, unfolding(crate::specs::Operations::operation_in_range, crate::specs::Operations::operation_bytes))]
fn open_text(h: Header, b: Bytes) -> Option<Text>
    ensures { result ≡ ready (operation_in_range (op.Open h b)) (operation_bytes 0 (op.Open h b)) }
{
    if header_in_range(h) && 0 <= b.0 && b.0 <= 1048576 {
        let text = Text::new()
            .number(1)
            .number(word_in_range(h))
            .number(b.0 as u64);
        Some(text)
    } else {
        None
    }
}

// The text of a dimension: register, offset, size, stride.
#[tactic(auto, unfolding(crate::specs::Operations::operation_bytes))]
fn dimension_text(d: Dimension) -> Option<Text>
    ensures { result ≡ ready (dimension_in_range d) (operation_bytes 0 (op.Dimension d)) }
{
    if d.register <= 31 && in_reach(d.offset.0) && d.size <= 4096 && in_reach(d.stride.0) {
        let text = Text::new()
            .number(2)
            .number(d.register as u64)
            .signed(d.offset.0)
            .number(d.size)
            .signed(d.stride.0);
        Some(text)
    } else {
        None
    }
}

// The text of a modifier: register, target, parameter, behaviour, displacement.
#[tactic(auto, unfolding(crate::specs::Operations::operation_bytes))]
fn modifier_text(m: Modifier) -> Option<Text>
    ensures { result ≡ ready (modifier_in_range m) (operation_bytes 0 (op.Modifier m)) }
{
    if m.register <= 31 && m.target <= 6 && m.displacement <= 1048576 {
        let text = Text::new()
            .number(3)
            .number(m.register as u64)
            .number(m.target)
            .number(m.parameter.into())
            .number(m.behaviour.into())
            .number(m.displacement);
        Some(text)
    } else {
        None
    }
}

// The text of an end: register.
#[tactic(auto, unfolding(crate::specs::Operations::operation_in_range, crate::specs::Operations::operation_bytes))]
fn end_text(register: usize) -> Option<Text>
    ensures { result ≡ ready (operation_in_range (op.End register)) (operation_bytes 0 (op.End register)) }
{
    if register <= 31 {
        Some(Text::new().number(4).number(register as u64))
    } else {
        None
    }
}

// The text of a run: register, count.
#[tactic(auto, unfolding(crate::specs::Operations::operation_in_range, crate::specs::Operations::operation_bytes))]
fn run_text(register: usize, count: u64) -> Option<Text>
    ensures { result ≡ ready (operation_in_range (op.Run register count)) (operation_bytes 0 (op.Run register count)) }
{
    if register <= 31 && 1 <= count && count <= 16 {
        Some(Text::new().number(5).number(register as u64).number(count))
    } else {
        None
    }
}

// The text of an operation, bits 19-15 and 23-22 of a header word zero.
#[tactic(auto, unfolding(crate::specs::Operations::operation_in_range, crate::specs::Operations::operation_bytes))]
fn operation_text(o: Operation) -> Option<Text>
    ensures { result ≡ ready (operation_in_range o) (operation_bytes 0 o) }
{
    match o {
        Operation::Open(h, b) => open_text(h, b),
        Operation::Dimension(d) => dimension_text(d),
        Operation::Modifier(m) => modifier_text(m),
        Operation::End(register) => end_text(register),
        Operation::Run(register, count) => run_text(register, count),
    }
}

// Writes an operation, bits 19-15 and 23-22 of a header word zero.
pub fn put_operation(buf: &mut [u8], at: usize, o: Operation) -> Result<usize, Unwritten>
    ensures { (result ≡ written_to (operation_in_range o) (operation_bytes 0 o) at (length buf.old)) × (buf.new ≡ bytes_after (operation_in_range o) (operation_bytes 0 o) buf.old at) }
{
    put(buf, at, operation_text(o))
}

// The text of a calculation; where there is one source only, the second is the first.
#[tactic(auto, unfolding(crate::specs::Operations::calculation_bytes))]
fn calculation_text(c: Calculation) -> Option<Text>
    ensures { result ≡ ready (calculation_in_range c) (calculation_bytes c) }
{
    let code = u64::from(c.task);
    if c.destination <= 31
        && c.first <= 31
        && c.second <= 31
        && (!has_one_source(code) || c.second == c.first)
    {
        let text = Text::new()
            .number(code)
            .number(c.destination as u64)
            .number(c.first as u64)
            .number(c.second as u64);
        Some(text)
    } else {
        None
    }
}

// Writes a calculation.
pub fn put_calculation(buf: &mut [u8], at: usize, c: Calculation) -> Result<usize, Unwritten>
    ensures { (result ≡ written_to (calculation_in_range c) (calculation_bytes c) at (length buf.old)) × (buf.new ≡ bytes_after (calculation_in_range c) (calculation_bytes c) buf.old at) }
{
    put(buf, at, calculation_text(c))
}

// The codes by which calculations and modifiers are written.
impl From<Parameter> for u64 {
    ghost use Rattle.std.specs.Prelude.{◌≡◌};
    ghost use Rattle.codec.specs.Operations.{parameter_code};

    ghost from_gives = { λ p n. n ≡ parameter_code p };

    fn from(p: Parameter) -> u64 {
        match p {
            Parameter::Size => 0,
            Parameter::Offset => 1,
            Parameter::Stride => 2,
        }
    }
}

impl From<Behaviour> for u64 {
    ghost use Rattle.std.specs.Prelude.{◌≡◌};
    ghost use Rattle.codec.specs.Operations.{behaviour_code};

    ghost from_gives = { λ b n. n ≡ behaviour_code b };

    fn from(b: Behaviour) -> u64 {
        match b {
            Behaviour::Add => 0,
            Behaviour::Subtract => 1,
        }
    }
}

impl From<Action> for u64 {
    ghost use Rattle.std.specs.Prelude.{◌≡◌};
    ghost use Rattle.codec.specs.Operations.{action_code};

    ghost from_gives = { λ a n. n ≡ action_code a };

    fn from(a: Action) -> u64 {
        match a {
            Action::Copy => 0,
            Action::Add => 1,
            Action::Subtract => 2,
            Action::And => 3,
            Action::Or => 4,
            Action::Xor => 5,
            Action::Smaller => 6,
            Action::Larger => 7,
        }
    }
}

impl From<Fold> for u64 {
    ghost use Rattle.std.specs.Prelude.{◌≡◌};
    ghost use Rattle.codec.specs.Operations.{fold_code};

    ghost from_gives = { λ f n. n ≡ fold_code f };

    fn from(f: Fold) -> u64 {
        match f {
            Fold::Sum => 8,
            Fold::Smallest => 9,
            Fold::Largest => 10,
            Fold::FirstLargest => 11,
        }
    }
}

impl From<Task> for u64 {
    ghost use Rattle.std.specs.Prelude.{◌≡◌};
    ghost use Rattle.codec.specs.Operations.{task_code};

    ghost from_gives = { λ t n. n ≡ task_code t };

    fn from(t: Task) -> u64 {
        match t {
            Task::Each(action) => action.into(),
            Task::All(fold) => fold.into(),
        }
    }
}
