// Walks streams to their end and prints, for each, the elements that the engine moved and the iterations that plain loops of the
// same descriptors begin. The first byte of standard input chooses one stream, from 1 to 9, to be walked alone and timed from
// outside; any other walks and counts all. The second byte, if it is 8, has the vector length 8 instead of 64.
#![tactic(auto)]

ghost use Rattle.std.specs.Prelude.{◌≤◌};

use engine::run::{run, set_up};
use engine::stream::Shape;
use words::file::take_all;

// A sheet that opens a stream in register 1 and walks it to its end.
#[derive(Clone, Copy)]
struct Stream<'a> {
    name: &'a str,
    sheet: &'a [u8],
}

// The elements that register 1's stream has moved when a sheet is done.
fn moved(sheet: &[u8], vl: u64) -> u64 {
    let mut memory = [1u8; 4096];
    let machine = run(sheet, vl, &mut memory).machine;
    machine.registers[1].moved
}

// The size of dimension `d` with what the modifiers add to it: each its owner's index, as every modifier of the streams here does.
fn size_here(s: &Shape, index: &[u64; 7], d: usize) -> u64
    requires { d ≤ 6 }
{
    let mut size = s.sizes[d];
    for m in s.modifiers.iter().take(s.mods) {
        if m.target == d && m.owner < index.len() {
            size = size.wrapping_add(index[m.owner]);
        }
    }
    size
}

// The iterations that the innermost loops begin, one within the other, at the indices of those outside them: one count for each index
// that a loop runs.
fn iterations(s: &Shape, loops: usize, mut index: [u64; 7]) -> u64
    requires { loops ≤ 7 }
{
    if loops == 0 {
        return 0;
    }
    let d = loops - 1;
    let mut count: u64 = 0;
    for i in 0..size_here(s, &index, d) {
        index[d] = i;
        count = count.wrapping_add(1).wrapping_add(iterations(s, d, index));
    }
    count
}

// The iterations of all loops of the stream that a sheet opens in register 1.
fn counted(sheet: &[u8]) -> u64 {
    let machine = set_up(sheet, sheet.len()).machine;
    let shape = machine.registers[1].pattern.shape;
    iterations(&shape, shape.dims.min(7), [0; 7])
}

fn main(rt: HostRuntime) {
    let streams = [
        Stream {
            name: "one dimension",
            sheet: b"\x01\x8b\x81\x01\x00\x02\x01\x00\x80\x20\x02\x04\x01\x05\x01\x01\x00\x02\x01\x01",
        },
        Stream {
            name: "two dimensions",
            sheet: b"\x01\x8b\x81\x01\x00\x02\x01\x00\x80\x20\x02\x02\x01\x00\x80\x02\x00\x04\x01\x05\x01\x01\x00\x02\x01\x01",
        },
        Stream {
            name: "two dimensions, half the rows",
            sheet: b"\x01\x8b\x81\x01\x00\x02\x01\x00\x80\x20\x02\x02\x01\x00\x80\x01\x00\x04\x01\x05\x01\x01\x00\x02\x01\x01",
        },
        Stream {
            name: "triangle",
            sheet: b"\x01\x8b\x81\x01\x00\x02\x01\x00\x01\x02\x02\x01\x00\x80\x08\x00\x03\x01\x00\x00\x00\x01\x04\x01\x05\x01\x01\x00\x02\x01\x01",
        },
        Stream {
            name: "triangle, half the rows",
            sheet: b"\x01\x8b\x81\x01\x00\x02\x01\x00\x01\x02\x02\x01\x00\x80\x04\x00\x03\x01\x00\x00\x00\x01\x04\x01\x05\x01\x01\x00\x02\x01\x01",
        },
        Stream {
            name: "seven dimensions",
            sheet: b"\x01\x8b\x81\x01\x00\x02\x01\x00\x08\x02\x02\x01\x00\x08\x02\x02\x01\x00\x08\x02\x02\x01\x00\x08\x02\x02\x01\x00\x08\x02\x02\x01\x00\x08\x02\x02\x01\x00\x04\x02\x04\x01\x05\x01\x01\x00\x02\x01\x01",
        },
        Stream {
            name: "seven dimensions, half the last",
            sheet: b"\x01\x8b\x81\x01\x00\x02\x01\x00\x08\x02\x02\x01\x00\x08\x02\x02\x01\x00\x08\x02\x02\x01\x00\x08\x02\x02\x01\x00\x08\x02\x02\x01\x00\x08\x02\x02\x01\x00\x02\x02\x04\x01\x05\x01\x01\x00\x02\x01\x01",
        },
        Stream {
            name: "empty passes",
            sheet: b"\x01\x8b\x81\x01\x00\x02\x01\x00\x00\x02\x02\x01\x00\x80\x20\x00\x02\x01\x00\x80\x01\x00\x02\x01\x00\x02\x00\x03\x01\x00\x00\x00\x01\x04\x01\x05\x01\x01\x00\x02\x01\x01",
        },
        Stream {
            name: "empty passes, half of them",
            sheet: b"\x01\x8b\x81\x01\x00\x02\x01\x00\x00\x02\x02\x01\x00\x80\x20\x00\x02\x01\x00\x40\x00\x02\x01\x00\x02\x00\x03\x01\x00\x00\x00\x01\x04\x01\x05\x01\x01\x00\x02\x01\x01",
        },
    ];
    let mut input = [0; 2];
    take_all(&mut rt.reader(), &mut input);
    let [choice, length] = input;
    let vl = if length == b'8' { 8 } else { 64 };
    let all = !matches!(choice, b'1'..=b'9');
    for (digit, Stream { name, sheet }) in (b'1'..=b'9').zip(streams) {
        if all {
            let _ = println!(rt;
                "{name}: {} elements, {} iterations",
                moved(sheet, vl),
                counted(sheet)
            );
        } else if choice == digit {
            let _ = println!(rt; "{name}: {} elements", moved(sheet, vl));
        }
    }
}
