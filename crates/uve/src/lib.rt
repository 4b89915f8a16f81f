// The boundary: the engine and the translator, for programs in other languages. include/uve.h declares the same two functions for C.
#![tactic(auto)]

mod numbers;
mod put;

ghost use Rattle.std.specs.Prelude.{◌≡◌};
ghost use Rattle.uve.specs.Calls.{run_answer, run_memory, run_report, translate_answer, translate_room, translate_report};

use engine::run::run;
use numbers::{head_numbers, refused_number, translation_numbers};
use put::{put_all, put_register};
use translator::translate::translate;

// The answer where a report is too short: 2^64 - 1. No refusal has this number.
const SHORT_REPORT: u64 = u64::MAX;

// Runs a sheet at a vector length on a lent memory, and writes 464 numbers into the report. Answers the refusal's number, or 0. A report
// under 3,712 bytes: nothing is run or written, and the answer is 2^64 - 1.
#[unsafe(no_mangle)]
pub extern "C" fn uve_run(sheet: &[u8], vl: u64, memory: &mut [u8], report: &mut [u8]) -> u64
    ensures value { result ≡ run_answer vl sheet.now memory.old report.old }
    ensures memory_after { memory.new ≡ run_memory vl sheet.now memory.old report.old }
    ensures report_after { report.new ≡ run_report vl sheet.now memory.old report.old }
{
    if report.len() < 3712 {
        return SHORT_REPORT;
    }
    let answer = run(sheet, vl, memory);
    let verdict = answer.verdict;
    let counts = answer.report;
    let machine = answer.machine;
    let head = head_numbers(verdict, counts);
    put_all(report, 0, &head);
    for (i, register) in machine.registers.iter().enumerate() {
        put_register(report, 64 + 112 * i, register);
    }
    let masks = [0u64; 8];
    put_all(report, 3648, &masks);
    refused_number(&verdict)
}

// Translates a nest into a room, and writes three numbers into the report. Answers the refusal's number, or 0. A report under 24 bytes:
// nothing is written, and the answer is 2^64 - 1.
#[unsafe(no_mangle)]
pub extern "C" fn uve_translate(nest: &[u8], room: &mut [u8], report: &mut [u8]) -> u64
    ensures value { result ≡ translate_answer nest.now room.old report.old }
    ensures room_after { room.new ≡ translate_room nest.now room.old report.old }
    ensures report_after { report.new ≡ translate_report nest.now room.old report.old }
{
    if report.len() < 24 {
        return SHORT_REPORT;
    }
    let translated = translate(nest, room);
    let numbers = translation_numbers(translated);
    put_all(report, 0, &numbers);
    refused_number(&translated)
}
