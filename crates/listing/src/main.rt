// Lists a sheet as text.
#![tactic(auto)]

ghost use Rattle.words.specs.Files.{IsPrefixLen};

use codec::refusal::{Refusal, Refused};
use engine::run::set_up;
use std::env::Env;
use std::fs::Files;
use words::argument::{arg_count, asks_for_help, complain};
use words::file::{Taken, is_whole, read_argument, read_input, write_output};
use words::refusal::{explained, refused};
use words::sheet::lines;
use words::text::Counted;

const HELP: &str = "usage: listing [SHEET]

Lists the sheet file SHEET, or standard input, as text: a line for each operation and calculation, with its
place, its bytes and its meaning; at the end of a stream also its dimensions, modifiers and elements, and
the addresses of the first and the last of these. The last line is `accepted`, or the last two say `refused
N at P`, with the refusal's number and place, and why: a refused sheet is listed up to there. What only a run
can refuse, for its memory or its vector length, the program `run` tells.
";

// How the program is used.
const USAGE: &[u8] = b"usage: listing [SHEET]\n";

// The last place to be listed of a refused sheet: the refusal's; for 16, which is looked at when the body is read, the sheet's end.
fn last_place(why: Refusal, place: usize, len: usize) -> usize {
    if why.number() == 16 { len } else { place }
}

// Lists a sheet, and says whether it is accepted.
fn list(out: &impl Print, err: &impl Print, sheet: &[u8]) {
    match set_up(sheet, sheet.len()).verdict {
        Ok(()) => {
            lines(out, sheet, 0, sheet.len());
            let bytes = Counted(sheet.len() as u64, "byte", "bytes");
            let _ = print!(out; "accepted: {bytes}");
        }
        Err(Refused { refusal, place }) => {
            lines(out, sheet, 0, last_place(refusal, place, sheet.len()));
            refused(out, refusal, place);
            let _ = out.print(": ");
            explained(out, refusal);
        }
    }
    write_output(out, err, b"\n");
}

// Reads the file that the first argument names, or standard input if there is none.
fn read_sheet<R: Env + Files + Input>(
    rt: &R,
    err: &impl Print,
    count: usize,
    sheet: &mut [u8],
) -> Taken
    ensures { IsPrefixLen result.count sheet.new }
{
    if count < 2 {
        return read_input(rt, err, sheet);
    }
    read_argument(rt, err, 1, sheet)
}

fn main(rt: HostRuntime) {
    let err = rt.stderr();
    if asks_for_help(&rt) {
        let _ = rt.print(HELP);
        return;
    }
    let count = arg_count(&rt);
    if 2 < count {
        complain(&err, b"listing takes one sheet\n");
        complain(&err, USAGE);
        return;
    }
    let mut sheet = [0; 65537];
    let Taken { count: n, stop } = read_sheet(&rt, &err, count, &mut sheet);
    if is_whole(&err, stop, USAGE) {
        list(&rt, &err, &sheet[..n]);
    }
}
