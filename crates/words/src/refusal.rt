// Refusals in words: document 01's table, then document 02's.
use crate::outside::{AtAddress, lane_at, operand};
use codec::refusal::Refusal;
use engine::register::Machine;

// Writes a refusal's number and place, as the first line of a run has them.
pub fn refused(out: &impl Print, r: Refusal, place: usize) {
    let _ = print!(out; "refused {} at {place}", r.number());
}

// What a refusal means, in a sentence.
fn meaning(r: Refusal) -> &'static str {
    match r {
        Refusal::BadNumber => "a number is cut off, too long or not shortest",
        Refusal::OutOfRange => "unknown operation, a field out of range, or bytes after the run",
        Refusal::FixedBits => "the header word breaks the fixed bits",
        Refusal::NotCarried => "m or inds is set in the header word",
        Refusal::WrongState => "the register is in the wrong state",
        Refusal::TooMany => "an eighth dimension or a ninth modifier",
        Refusal::Misplaced =>
            "there is no dimension yet, a modifier's target is not below its owner, or the coupled dimension is missing",
        Refusal::LowHigh => "a modified size can fall below 0 or rise above 4,096",
        Refusal::Product => "the product of the dimensions' sizes is above 1,048,576",
        Refusal::WrongKind => "a load stream as destination, or a store stream as source",
        Refusal::StreamEnded => "a finished register in a calculation",
        Refusal::Widths => "the widths of the registers differ",
        Refusal::LaneCounts => "the lanes of the sources differ, or exceed the store's chunk",
        Refusal::Outside(..) => "an element lies outside memory",
        Refusal::Lengths => "the vector length or the memory's length is not allowed",
        Refusal::LoopRegister =>
            "the loop register is no open or finished load stream, or no calculation has it as a source",
        Refusal::NoRoom => "there is no room for the translated sheet",
        Refusal::NoLanes => "no lanes for a smallest, a largest or a first largest",
    }
}

// What to look at to mend it.
fn hint(r: Refusal) -> &'static str {
    match r {
        Refusal::BadNumber =>
            "seven bits to a byte, lowest first, 80h added to all but the last; below 2^32, no 00 at the end",
        Refusal::OutOfRange =>
            "registers 0 to 31, sizes to 4,096, other amounts to 1,048,576, calculations 1 to 16; a copy, and a calculation over all lanes, names its source twice; the run is last",
        Refusal::FixedBits =>
            "bits 6-0 are 0001011, 21-20 and 26-25 are 00; 29-27 are 000 if 30 is clear, and never 111",
        Refusal::NotCarried => "clear bits 31 and 24: masks and gathers are not carried",
        Refusal::WrongState =>
            "open wants a plain or finished register, its dimensions, modifiers and end one being configured, a calculation none such",
        Refusal::TooMany => "a stream has at most 7 dimensions and 8 modifiers",
        Refusal::Misplaced =>
            "a modifier belongs to the dimension added last and changes an earlier one; end wants a dimension, and the coupled one",
        Refusal::LowHigh =>
            "a size moves by displacement x (the owner's largest size - 1), for each modifier on it",
        Refusal::Product => "each size counts at its largest, and as 1 if it is 0",
        Refusal::WrongKind => "load streams are sources, a store stream is the destination",
        Refusal::StreamEnded =>
            "each calculation that reads a stream takes a chunk of its own: copy one to a plain register to use it twice",
        Refusal::Widths =>
            "both sources, and a store stream, have one width; a fresh register has width 1",
        Refusal::LaneCounts =>
            "give the streams of a calculation the same sizes, modifiers and coupling; a fresh register has no lanes",
        Refusal::Outside(..) =>
            "its address is below 0, or its last byte lies behind the memory's end",
        Refusal::Lengths =>
            "a vector has 8 to 64 bytes, a multiple of 8; a memory has at most 65,536",
        Refusal::LoopRegister => "end its stream before the run, and read it in the body",
        Refusal::NoRoom => "1,024 bytes always suffice",
        Refusal::NoLanes =>
            "a fresh register has no lanes, nor has a coupled pass without elements; only the sum of none is told: 0",
    }
}

// Writes two lines on a refusal, the second without its end: what it means, and a hint.
pub fn explained(out: &impl Print, r: Refusal) {
    let _ = print!(out; "{}\nhint: {}", meaning(r), hint(r));
}

// The same where a sheet was run, by the refusal's place and the registers left: 14 names the lane that fell outside, and its address.
pub fn explained_run(out: &impl Print, r: Refusal, place: usize, sheet: &[u8], m: Machine) {
    let Refusal::Outside(lane, role) = r else {
        return explained(out, r);
    };
    let _ = print!(out;
        "lane {lane} of the {}{} lies outside memory\nhint: {}",
        operand(role),
        AtAddress(lane_at(sheet, m, place, lane, role)),
        hint(r)
    );
}
