// A nest translated and run.
ghost use Rattle.std.specs.Prelude.{◌≡◌};
ghost use Rattle.engine.specs.Bodies.{progress_of};
ghost use Rattle.engine.specs.Registers.{fresh_machine};
ghost use Rattle.engine.specs.Sheets;
ghost use Rattle.translator.specs.Acceptance.{Accepted};
ghost use Rattle.translator.specs.NestSheets.{sheet_of};
ghost use Rattle.translator.specs.Promise3.{Delivered};
ghost use Rattle.translator.specs.Translation.{run_nest, outcome_of, refused_answer};

use crate::nest::{Nest, NestAnswer, Stage};
use crate::read::read_nest;
use crate::write::sheet_page;
use codec::refusal::{Refusal, Refused};
use engine::register::fresh_machine;
use engine::run::{Answer, Report, is_allowed, run};

// A refusal before any register was used.
fn unrun(refused: Refused) -> Answer
    ensures { result ≡ refused_answer refused.refusal refused.place }
{
    Answer {
        verdict: Err(refused),
        report: Report {
            passes: 0,
            calculations: 0,
        },
        machine: fresh_machine(),
    }
}

// The run of the sheet of an accepted nest.
fn run_sheet(m: &Nest, vl: u64, memory: &mut [u8]) -> Answer
    requires { Accepted m.now }
    ensures { progress_of result memory.new ≡ Sheets.run vl (sheet_of m.now) memory.old }
{
    let page = sheet_page(m);
    run(&page.bytes[..page.at], vl, memory)
}

// The answer of the nest that bytes are, translated and run at a vector length, on a lent memory: 15 first, then the nest's refusals,
// then the run of its sheet. Demand 3: done if every visit lies inside memory; the plain loop's memory if also no visit reads what an
// earlier one wrote.
pub fn run_nest(s: &[u8], vl: u64, memory: &mut [u8]) -> NestAnswer
    ensures memory_after { outcome_of result memory.new ≡ run_nest vl s.now memory.old }
    ensures delivered { Delivered s.now vl memory.old result memory.new }
{
    if !is_allowed(vl, memory.len()) {
        let lengths = Refused {
            refusal: Refusal::Lengths,
            place: 0,
        };
        return NestAnswer {
            stage: Stage::Lengths,
            answer: unrun(lengths),
        };
    }
    match read_nest(s) {
        Ok(nest) => NestAnswer {
            stage: Stage::Sheet,
            answer: run_sheet(&nest, vl, memory),
        },
        Err(refused) => NestAnswer {
            stage: Stage::Nest,
            answer: unrun(refused),
        },
    }
}
