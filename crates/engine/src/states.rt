// The states, kinds and widths of a calculation's three registers: 5, 11, 10 and 12.
ghost use Rattle.std.specs.Prelude.{◌≡◌, not, ◌&&◌, ◌||◌, ◌++◌, ◌==◌};
ghost use Rattle.engine.specs.Registers.{open_load, open_store};
ghost use Rattle.engine.specs.Checks.{first_of};
ghost use Rattle.engine.specs.Calculate.{source_checks, destination_checks};
ghost use Rattle.engine.specs.Runnings.{bare};

use crate::register::State;
use crate::running::Running;
use codec::header::Kind;
use codec::refusal::Refusal;

// The checks of a source: 5, 11, 10.
#[tactic(auto, unfolding(crate::specs::Checks::first_of))]
fn check_source(r: Running) -> Result<(), Refusal>
    ensures { result ≡ first_of (source_checks (bare r)) }
{
    if r.state == State::Configuring {
        return Err(Refusal::WrongState);
    }
    if r.state == State::Finished {
        return Err(Refusal::StreamEnded);
    }
    if open_store(r) {
        return Err(Refusal::WrongKind);
    }
    Ok(())
}

// The checks of a destination: 5, 11, 10.
#[tactic(auto, unfolding(crate::specs::Checks::first_of))]
fn check_destination(d: Running) -> Result<(), Refusal>
    ensures { result ≡ first_of (destination_checks (bare d)) }
{
    if d.state == State::Configuring {
        return Err(Refusal::WrongState);
    }
    if d.state == State::Finished {
        return Err(Refusal::StreamEnded);
    }
    if open_load(d) {
        return Err(Refusal::WrongKind);
    }
    Ok(())
}

fn open_load(r: Running) -> bool
    ensures { result ≡ open_load (bare r) }
{
    r.state == State::Open && r.kind == Kind::Load
}

pub(crate) fn open_store(r: Running) -> bool
    ensures { result ≡ open_store (bare r) }
{
    r.state == State::Open && r.kind == Kind::Store
}

// The checks of the three registers' states: first source, second source, destination in turn.
#[tactic(auto, unfolding(crate::specs::Checks::first_of))]
pub(crate) fn check_states(a: Running, b: Running, d: Running) -> Result<(), Refusal>
    ensures { result ≡ first_of (source_checks (bare a) ++ source_checks (bare b) ++ destination_checks (bare d)) }
{
    check_source(a)?;
    check_source(b)?;
    check_destination(d)
}

// Whether widths differ: 12.
pub(crate) fn widths_differ(a: Running, b: Running, d: Running) -> bool
    ensures { result ≡ (not (a.width == b.width) || open_store (bare d) && not (a.width == d.width)) }
{
    a.width != b.width || open_store(d) && a.width != d.width
}
