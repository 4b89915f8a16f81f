// The run of a sheet: its answer.
ghost use Rattle.std.specs.Prelude.{◌≡◌};
ghost use Rattle.engine.specs.Registers.{fresh_machine};
ghost use Rattle.engine.specs.Sheets.{allowed, operations_from};
ghost use Rattle.engine.specs.Sheets;
ghost use Rattle.engine.specs.Bodies.{progress_of, settled_of};

use crate::execute::execute;
use crate::register::{Machine, fresh_machine};
use crate::sheet::operations;
use codec::operation::{Action, Calculation, Task};
use codec::refusal::{Refusal, Refused};

// What a run reports: passes and calculations completed.
#[derive(Clone, Copy)]
pub struct Report {
    pub passes: u64,
    pub calculations: u64,
}

// The answer of a sheet: done, or refused. The memory is the caller's.
#[derive(Clone, Copy)]
pub struct Answer {
    pub verdict: Result<(), Refused>,
    pub report: Report,
    pub machine: Machine,
}

// A calculation of a body, with the place of its first byte.
#[derive(Clone, Copy)]
pub struct Placed {
    pub place: usize,
    pub calculation: Calculation,
}

// Register 0 copied to itself, at place 0: what fills the places that a body leaves unused.
impl Default for Placed {
    ghost use Rattle.std.specs.Prelude.{◌≡◌};
    ghost use Rattle.engine.specs.Histories.{no_placed};

    ghost is_default = { λ p. p ≡ no_placed };

    fn default() -> Placed {
        Placed {
            place: 0,
            calculation: Calculation {
                task: Task::Each(Action::Copy),
                destination: 0,
                first: 0,
                second: 0,
            },
        }
    }
}

// What some operations of a sheet leave: whether one was refused so far, and the registers.
#[derive(Clone, Copy)]
pub struct Settled {
    pub verdict: Result<(), Refused>,
    pub machine: Machine,
}

// "vector length | 8 to 64 bytes, a multiple of 8", "memory | 0 to 65,536 bytes"
pub fn is_allowed(vl: u64, size: usize) -> bool
    ensures { result ≡ allowed vl size }
{
    8 <= vl && vl <= 64 && vl % 8 == 0 && size <= 65536
}

// The answer of a sheet at a vector length, on a lent memory: 15 first, then its operations, then its run.
pub fn run(sheet: &[u8], vl: u64, memory: &mut [u8]) -> Answer
    ensures { progress_of result memory.new ≡ Sheets.run vl sheet.now memory.old }
{
    let report = Report {
        passes: 0,
        calculations: 0,
    };
    let mut machine = fresh_machine();
    if !is_allowed(vl, memory.len()) {
        return Answer {
            verdict: Err(Refused {
                refusal: Refusal::Lengths,
                place: 0,
            }),
            report,
            machine,
        };
    }
    match operations(sheet, sheet.len(), &mut machine) {
        Ok(Some(run)) => execute(vl, run.register, &run.body, machine, memory),
        Ok(None) => Answer {
            verdict: Ok(()),
            report,
            machine,
        },
        Err(refused) => Answer {
            verdict: Err(refused),
            report,
            machine,
        },
    }
}

// The registers after at most so many operations of a sheet from fresh ones, and the verdict so far. A run is not executed.
pub fn set_up(sheet: &[u8], most: usize) -> Settled
    ensures { result ≡ settled_of (operations_from most sheet.now 0 fresh_machine) }
{
    let mut machine = fresh_machine();
    let ending = operations(sheet, most, &mut machine);
    Settled {
        verdict: ending.map(|_| ()),
        machine,
    }
}
