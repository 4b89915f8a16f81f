// The two questions about a stream, total on every machine.
ghost use Rattle.std.specs.Prelude.{◌≡◌, ◌||◌};
ghost use Rattle.engine.specs.Registers.{is_open, is_finished};
ghost use Rattle.engine.specs.Questions.{ask_flag, ask_end};

use crate::register::{Machine, State};
use codec::refusal::Refusal;

// Whether a register has an ended stream.
pub(crate) fn has_stream(k: State) -> bool
    ensures { result ≡ (is_open k || is_finished k) }
{
    k == State::Open || k == State::Finished
}

// Whether the flag of a register's dimension is set. Refused with 2 for a register above 31 or a dimension not 1 to 7, then 5
// for a plain or configuring register, then 2 for a dimension that the stream lacks.
#[tactic(auto, unfolding(crate::specs::Questions::ask_flag, crate::specs::Checks::first_of))]
pub fn flag(m: Machine, register: usize, dimension: u64) -> Result<bool, Refusal>
    ensures { result ≡ ask_flag m register dimension }
{
    if 31 < register || dimension == 0 || 7 < dimension {
        return Err(Refusal::OutOfRange);
    }
    let r = m.registers[register];
    if !has_stream(r.state) {
        return Err(Refusal::WrongState);
    }
    if (r.pattern.shape.dims as u64) < dimension {
        return Err(Refusal::OutOfRange);
    }
    Ok(dimension < r.height)
}

// Whether a register's stream has ended. Refused with 2 for a register above 31, then 5 for a plain or configuring one.
#[tactic(auto, unfolding(crate::specs::Questions::ask_end, crate::specs::Checks::first_of))]
pub fn end_of_stream(m: Machine, register: usize) -> Result<bool, Refusal>
    ensures { result ≡ ask_end m register }
{
    if 31 < register {
        return Err(Refusal::OutOfRange);
    }
    let r = m.registers[register];
    if !has_stream(r.state) {
        return Err(Refusal::WrongState);
    }
    Ok(r.state == State::Finished)
}
