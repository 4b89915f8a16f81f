// Reads a nest from standard input and writes its sheet to standard output, or nothing if it is refused; why it is refused is said on
// standard error.
#![tactic(auto)]

use codec::refusal::{Refusal, Refused};
use translator::translate::translate;
use words::argument::{arg_count, asks_for_help, complain};
use words::file::{Taken, read_input, write_output};

const HELP: &str = "usage: translate < NEST > SHEET

Reads a loop nest from standard input and writes its sheet to standard output, or nothing if it is refused.

A nest is these numbers in order, each in groups of seven bits, lowest group first, with the high bit set on
all groups but the last; a signed n is written as 2n, or as -2n-1 if it is below 0.

  width code     0 to 3, for elements of 1, 2, 4 or 8 bytes
  loops          1 to 7
  coupled loop   0 for none, else 1, the innermost, to the number of loops
  operation      1 add, 2 subtract, 3 and, 4 or, 5 xor, 6 signed smaller, 7 signed larger
  each loop      innermost first: a count, 0 to 4,096, and a signed term for each loop outside it, nearest first
  each stream    first source, second source, destination: a base in bytes, and a signed stride in elements for
                 each loop, innermost first

A loop's count is its number plus each term times that outer loop's index. At each visit the destination
becomes the operation of both sources. If the nest is refused, standard error says `refused N at P`, the
refusal's number and place, and why.
";

// What a refusal means in a nest.
fn meaning(why: Refusal) -> &'static str {
    match why {
        Refusal::BadNumber => "a number is cut off, too long or not shortest",
        Refusal::OutOfRange => "a number out of its range, or bytes after the nest",
        Refusal::TooMany => "more than eight terms are not 0",
        Refusal::LowHigh => "a loop's count can fall below 0 or rise above 4,096",
        Refusal::Product => "the product of the loops' largest counts is above 1,048,576",
        _ => "there is no room for the sheet",
    }
}

// Writes the sheet of a nest, or says why there is none.
fn write_sheet(out: &impl Print, err: &impl Print, nest: &[u8]) {
    let mut room = [0; 1024];
    match translate(nest, &mut room) {
        Ok(behind) => write_output(out, err, &room[..behind]),
        Err(Refused { refusal, place }) => {
            let number = refusal.number();
            let why = meaning(refusal);
            let _ = println!(err; "refused {number} at {place}: {why}");
        }
    }
}

fn main(rt: HostRuntime) {
    let err = rt.stderr();
    if asks_for_help(&rt) {
        let _ = rt.print(HELP);
        return;
    }
    if 1 < arg_count(&rt) {
        complain(
            &err,
            b"translate takes no arguments\nusage: translate < NEST > SHEET\n",
        );
        return;
    }
    // No nest is longer than 195 bytes: one that fills this buffer is refused as the whole of it is.
    let mut nest = [0; 257];
    let Taken { count: n, stop } = read_input(&rt, &err, &mut nest);
    if !stop.failed() {
        write_sheet(&rt, &err, &nest[..n]);
    }
}
