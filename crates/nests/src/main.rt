// Nests of our own, run by the translator's `run_nest` and by plain loops: reads a table of rows from standard input, writes a line for each,
// and at the end how many there were and how many were not as they must be. The table is the file crates/nests/stdin, whose head says
// how rows are written.
#![tactic(auto)]

mod line;
mod plain;
mod rows;

use crate::line::Line;
use crate::rows::Row;
use words::file::take_all;

// How many rows there were, and how many were not as they must be.
#[derive(Clone, Copy)]
struct Tally {
    rows: u64,
    wrong: u64,
}

// Writes the row of a line, and answers whether it is as it must be.
fn is_right(out: &impl Print, line: &Line) -> bool {
    match Row::read(line, &mut [0; 128]) {
        Some(row) => row.write(out),
        None => {
            let _ = println!(out; "a row that cannot be read");
            false
        }
    }
}

// Every line of a table in turn that is neither empty nor a comment. Bytes that no newline ends are no line.
fn table(out: &impl Print, text: &[u8]) -> Tally {
    let mut tally = Tally { rows: 0, wrong: 0 };
    for line in text.split_inclusive(|b| *b == b'\n') {
        let Some(line) = line.strip_suffix(b"\n").and_then(Line::read) else {
            continue;
        };
        tally.rows = tally.rows.wrapping_add(1);
        if !is_right(out, &line) {
            tally.wrong = tally.wrong.wrapping_add(1);
        }
    }
    tally
}

fn main(rt: HostRuntime) {
    let mut text = [0u8; 32768];
    let taken = take_all(&mut rt.reader(), &mut text);
    let Tally { rows, wrong } = table(&rt, &text[..taken.count]);
    let _ = println!(rt; "{rows} rows, {wrong} not as they must be");
}
