// Runs a sheet file on a copy of a memory file, and says in words what came of it.
#![tactic(auto)]

use codec::refusal::Refused;
use engine::register::Machine;
use engine::run::{Answer, Report};
use std::env::Env;
use std::fs::Files;
use words::argument::{arg_count, asks_for_help, complain, number_argument};
use words::file::{Stop, Taken, is_whole, read_argument, write_argument, write_output};
use words::memory::changed;
use words::refusal::{explained_run, refused};
use words::register::registers;
use words::sheet::lines;
use words::text::Counted;

const HELP: &str = "usage: run VECTOR-LENGTH SHEET MEMORY [OUT]

Runs the sheet file SHEET on a copy of the memory file MEMORY, with vectors of VECTOR-LENGTH bytes (8 to 64,
a multiple of 8), and writes the memory after it to the file OUT, if one is named.

The first line is `done`, or `refused N at P`: the refusal's number and place. What it means (of 14: which
lane of which operand lies outside memory, and at what address) and what stands at that place come next.
Then the passes and calculations completed; a line for each register that is not fresh: its state, kind and
width, the elements moved (a coupled pass that holds none counts as one), the flags (a set one by its
dimension, a clear one as -) and the valid lanes in hexadecimal; and how many bytes of the memory changed.
";

// How the program is used.
const USAGE: &[u8] = b"usage: run VECTOR-LENGTH SHEET MEMORY [OUT]\n";

fn wrong_use(err: &impl Print, what: &[u8]) {
    complain(err, what);
    complain(err, USAGE);
}

// Writes the verdict of a sheet; of a refusal its meaning, and the line of what stands at its place. 15 has no place.
fn verdict_words(out: &impl Print, v: Result<(), Refused>, sheet: &[u8], m: Machine) {
    match v {
        Ok(()) => {
            let _ = out.println("done");
        }
        Err(Refused { refusal, place }) => {
            refused(out, refusal, place);
            let _ = out.println("");
            explained_run(out, refusal, place, sheet, m);
            let _ = out.println("");
            if refusal.number() != 15 {
                lines(out, sheet, place, place);
            }
        }
    }
}

// Writes how many passes and calculations were completed.
fn report_words(out: &impl Print, r: Report) {
    let passes = Counted(r.passes, "pass", "passes");
    let calculations = Counted(r.calculations, "calculation", "calculations");
    let _ = println!(out; "{passes}, {calculations}");
}

// Writes how many bytes of a memory changed. One of more than 65,536 bytes was not read to its end.
fn last_line(out: &impl Print, err: &impl Print, before: &[u8], after: &[u8]) {
    let count = changed(before, after);
    let bytes = Counted(before.len() as u64, "memory byte", "memory bytes");
    let _ = if 65536 < before.len() {
        print!(out; "{count} of more than 65,536 memory bytes changed")
    } else {
        print!(out; "{count} of {bytes} changed")
    };
    write_output(out, err, b"\n");
}

// Writes all that a run came to.
fn answer_words(
    out: &impl Print,
    err: &impl Print,
    a: Answer,
    sheet: &[u8],
    before: &[u8],
    after: &[u8],
) {
    let machine = a.machine;
    verdict_words(out, a.verdict, sheet, machine);
    report_words(out, a.report);
    registers(out, machine);
    last_line(out, err, before, after);
}

// Writes the memory to the fourth argument's file. One of more than 65,536 bytes was not read to its end, so it is not written.
fn keep<R: Env + Files>(rt: &R, err: &impl Print, stop: Stop, memory: &[u8]) {
    if stop.full() {
        complain(
            err,
            b"the memory has more than 65,536 bytes, and is not written\n",
        );
        return;
    }
    write_argument(rt, err, 4, memory);
}

// Runs a sheet on a memory, of which a copy is kept. Where a fourth argument names a file, that is given the memory after it.
fn job<R: Env + Files + Print>(
    rt: &R,
    err: &impl Print,
    vl: u64,
    sheet: &[u8],
    before: &[u8],
    memory: &mut [u8],
    stop: Stop,
    named: bool,
) {
    let answer = engine::run::run(sheet, vl, memory);
    if named {
        keep(rt, err, stop, memory);
    }
    answer_words(rt, err, answer, sheet, before, memory);
}

// Runs a sheet on the memory file that the third argument names.
fn on_memory<R: Env + Files + Print>(rt: &R, err: &impl Print, vl: u64, sheet: &[u8], named: bool) {
    let mut before = [0; 65537];
    let Taken { count: n, stop } = read_argument(rt, err, 3, &mut before);
    if stop.failed() {
        complain(err, USAGE);
        return;
    }
    let mut memory = before;
    job(
        rt,
        err,
        vl,
        sheet,
        &before[..n],
        &mut memory[..n],
        stop,
        named,
    );
}

fn main(rt: HostRuntime) {
    let err = rt.stderr();
    if asks_for_help(&rt) {
        let _ = rt.print(HELP);
        return;
    }
    let count = arg_count(&rt);
    if count < 4 {
        wrong_use(&err, b"run takes a vector length, a sheet and a memory\n");
        return;
    }
    if 5 < count {
        wrong_use(&err, b"run takes no more than four arguments\n");
        return;
    }
    let Some(vl) = number_argument(&rt, 1) else {
        wrong_use(&err, b"the vector length is no number\n");
        return;
    };
    let mut sheet = [0; 65537];
    let Taken { count: n, stop } = read_argument(&rt, &err, 2, &mut sheet);
    if is_whole(&err, stop, USAGE) {
        on_memory(&rt, &err, vl, &sheet[..n], count == 5);
    }
}
