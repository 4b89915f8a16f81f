// The bench: reads a table of rows from standard input, runs each row's sheet on the compiled engine, and compares. The table is the
// file crates/bench/stdin, whose head says how rows are written.
#![tactic(auto)]

ghost use Rattle.std.specs.Prelude.{◌<◌, ◌≤◌, length, IfSome};

use codec::refusal::{Refusal, Refused};
use engine::question::{end_of_stream, flag};
use engine::run::{Answer, run};
use words::file::take_all;
use words::text::say;

// How many rows there were, and how many did not agree.
#[derive(Clone, Copy)]
struct Tally {
    rows: u64,
    wrong: u64,
}

// What becomes of a sheet: the refusal's number and place, 0 if there is none, the passes and the calculations, and of a 14 lane and
// operand.
#[derive(Clone, Copy)]
struct Outcome {
    number: u64,
    place: u64,
    passes: u64,
    calculations: u64,
    lane: u64,
    operand: u64,
}

impl Outcome {
    // The outcome that a field gives: four numbers, or six.
    fn read(text: &[u8]) -> Option<Self> {
        let mut room = [0; 6];
        let given = numbers(text, &mut room)?.len();
        if given != 4 && given != 6 {
            return None;
        }
        let [number, place, passes, calculations, lane, operand] = room;
        Some(Outcome {
            number,
            place,
            passes,
            calculations,
            lane,
            operand,
        })
    }

    // Whether a sheet's answer is this one.
    fn is_of(&self, answer: &Answer) -> bool {
        self.passes == answer.report.passes
            && self.calculations == answer.report.calculations
            && self.ends(answer.verdict)
    }

    fn ends(&self, verdict: Result<(), Refused>) -> bool {
        match verdict {
            Ok(()) => self.number == 0 && self.place == 0,
            Err(Refused { refusal, place }) => {
                self.number == refusal.number()
                    && self.place == place as u64
                    && self.lane == refusal.lane()
                    && self.operand == refusal.operand()
            }
        }
    }
}

// The field of a line that stands behind so many semicolons; empty if the line has fewer.
fn field(line: &[u8], marks: usize) -> &[u8] {
    line.split(|b| *b == b';').nth(marks).unwrap_or(&[])
}

// How many semicolons a line has.
fn semicolons(line: &[u8]) -> usize {
    line.iter().filter(|b| **b == b';').count()
}

// The value of a hexadecimal digit, in upper case.
fn digit(b: u8) -> Option<u8>
    ensures { IfSome result (λ d. d < 16) }
{
    match b {
        b'0'..=b'9' => Some(b - b'0'),
        b'A'..=b'F' => Some(b - b'A' + 10),
        _ => None,
    }
}

// The number of decimal digits, below 1,000,000,000.
fn number(digits: &[u8]) -> Option<u64> {
    digits.iter().try_fold(0u64, |value, b| {
        if !b.is_ascii_digit() || 99_999_999 < value {
            return None;
        }
        Some(value * 10 + u64::from(b - b'0'))
    })
}

// The decimal numbers of a field, put into a room.
fn numbers<'a>(text: &[u8], room: &'a mut [u64]) -> Option<&'a [u64]>
    ensures { IfSome result (λ r. length r.now ≤ length room.old) }
{
    let mut count = 0;
    for digits in text
        .split(|b| *b == b' ')
        .filter(|digits| !digits.is_empty())
    {
        let value = number(digits)?;
        *room.get_mut(count)? = value;
        count += 1;
    }
    Some(&room[..count])
}

// The bytes of a field, put into a room: pairs of hexadecimal digits, with spaces and bars between them.
fn bytes<'a>(text: &[u8], room: &'a mut [u8]) -> Option<&'a [u8]>
    ensures { IfSome result (λ r. length r.now ≤ length room.old) }
{
    let mut count = 0;
    for digits in text.split(|b| *b == b' ' || *b == b'|') {
        for pair in digits.chunks(2) {
            let [high, low] = pair else {
                return None;
            };
            let value = digit(*high)? * 16 + digit(*low)?;
            *room.get_mut(count)? = value;
            count += 1;
        }
    }
    Some(&room[..count])
}

// Makes a memory a numbered one: its bytes hold their own places, those from 256 on 0.
fn number_bytes(memory: &mut [u8]) {
    for (place, byte) in memory.iter_mut().enumerate() {
        *byte = u8::try_from(place).unwrap_or(0);
    }
}

// What is told, as a number: 0 no, 1 yes, or 100 and the refusal's.
fn told(t: Result<bool, Refusal>) -> u64 {
    match t {
        Ok(false) => 0,
        Ok(true) => 1,
        Err(refusal) => refusal.number().wrapping_add(100),
    }
}

// run, copies, memory: whether a sheet has the outcome of one field, and leaves a memory that ends with the bytes of another.
fn ran(sheet: &[u8], vl: u64, memory: &mut [u8], outcome: &[u8], end: &[u8]) -> Option<bool> {
    let mut room = [0u8; 256];
    let outcome = Outcome::read(outcome)?;
    let end = bytes(end, &mut room)?;
    let answer = run(sheet, vl, memory);
    Some(outcome.is_of(&answer) && memory.strip_suffix(end).is_some())
}

// ask: whether the end of a register's stream, or with three numbers the flag of its dimension, is told so after a sheet.
fn asks(sheet: &[u8], vl: u64, memory: &mut [u8], question: &[u8]) -> Option<bool> {
    match numbers(question, &mut [0; 3])? {
        [register, wanted] => {
            let machine = run(sheet, vl, memory).machine;
            Some(told(end_of_stream(machine, *register as usize)) == *wanted)
        }
        [register, dimension, wanted] => {
            let machine = run(sheet, vl, memory).machine;
            Some(told(flag(machine, *register as usize, *dimension)) == *wanted)
        }
        _ => None,
    }
}

// Whether the row of a line agrees; none if it cannot be read. Its vector length, the size of its memory and its sheet are read first.
fn agreement(line: &[u8]) -> Option<bool> {
    let mut lengths = [0; 2];
    let mut sheet = [0u8; 512];
    let mut memory = [0u8; 65537];
    let [vl, size] = *numbers(field(line, 2), &mut lengths)? else {
        return None;
    };
    let sheet = bytes(field(line, 3), &mut sheet)?;
    let memory = memory.get_mut(..size as usize)?;
    match (field(line, 0), semicolons(line)) {
        (b"run", 4) | (b"copies", 5) => {
            number_bytes(memory);
            ran(sheet, vl, memory, field(line, 4), field(line, 5))
        }
        (b"memory", 6) => {
            bytes(field(line, 5), memory)?;
            ran(sheet, vl, memory, field(line, 4), field(line, 6))
        }
        (b"ask", 4) => {
            number_bytes(memory);
            asks(sheet, vl, memory, field(line, 4))
        }
        _ => None,
    }
}

// Whether the row of a line agrees. One that does not agree or cannot be read is named.
fn agrees(out: &impl Print, line: &[u8], number: usize) -> bool {
    match agreement(line) {
        Some(true) => return true,
        Some(false) => {
            say(out, b"does not agree:");
            say(out, field(line, 1));
            say(out, b"\n");
        }
        None => {
            let _ = println!(out; "cannot be read: line {number}");
        }
    }
    false
}

// Compares the row of every line that is neither empty nor a comment.
fn table(out: &impl Print, text: &[u8]) -> Tally {
    let mut tally = Tally { rows: 0, wrong: 0 };
    for (above, line) in text.split(|b| *b == b'\n').enumerate() {
        if line.is_empty() || line[0] == b'#' {
            continue;
        }
        tally.rows = tally.rows.wrapping_add(1);
        if !agrees(out, line, above.wrapping_add(1)) {
            tally.wrong = tally.wrong.wrapping_add(1);
        }
    }
    tally
}

// Compares every row of a table, and prints the counts. A table that fills its buffer may be cut off.
fn report(out: &impl Print, text: &[u8]) {
    if text.len() == 131072 {
        say(out, b"cannot be read: more than 131,071 bytes\n");
    }
    let Tally { rows, wrong } = table(out, text);
    let _ = println!(out; "{rows} rows, {wrong} do not agree");
}

fn main(rt: HostRuntime) {
    let mut text = [0u8; 131072];
    let taken = take_all(&mut rt.reader(), &mut text);
    report(&rt, &text[..taken.count]);
}
