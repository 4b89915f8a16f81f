// The numbers of a report.
ghost use Rattle.std.specs.Prelude.{◌≡◌, ◌≤◌, ◌++◌};
ghost use Rattle.uve.specs.Reports.{head_numbers, state_number, kind_number, unless_plain, of_stream, flag_digit, flags_of, lane_numbers, register_numbers, translation_numbers, refused_number};

use codec::header::Kind;
use codec::refusal::Refused;
use engine::register::{Register, State};
use engine::run::Report;

// The refusal's number, or 0.
pub(crate) fn refused_number<T>(answer: &Result<T, Refused>) -> u64
    ensures { result ≡ refused_number answer.now }
{
    match answer {
        Ok(_) => 0,
        Err(refused) => refused.refusal.number(),
    }
}

// The first eight numbers of a run's report.
#[tactic(auto, unfolding(crate::specs::Reports::head_numbers))]
pub(crate) fn head_numbers(v: Result<(), Refused>, r: Report) -> [u64; 8]
    ensures { result ≡ head_numbers v r }
{
    match v {
        Ok(()) => [0, 0, r.passes, r.calculations, 0, 0, 0, 0],
        Err(Refused { refusal, place }) => [
            refusal.number(),
            place as u64,
            r.passes,
            r.calculations,
            refusal.lane(),
            refusal.operand(),
            0,
            0,
        ],
    }
}

// The number of a state, which callers in other languages get. The type is another crate's, and cannot have its `From` here.
fn state_number(k: State) -> u64
    ensures { result ≡ state_number k }
{
    match k {
        State::Plain => 0,
        State::Configuring => 1,
        State::Open => 2,
        State::Finished => 3,
    }
}

// The number of a kind, alike.
fn kind_number(k: Kind) -> u64
    ensures { result ≡ kind_number k }
{
    match k {
        Kind::Load => 1,
        Kind::Store => 2,
    }
}

// A number that a plain register lacks.
fn unless_plain(k: State, n: u64) -> u64
    ensures { result ≡ unless_plain k n }
{
    match k {
        State::Plain => 0,
        State::Configuring | State::Open | State::Finished => n,
    }
}

// A number that only an open or finished register has.
fn of_stream(k: State, n: u64) -> u64
    ensures { result ≡ of_stream k n }
{
    match k {
        State::Plain | State::Configuring => 0,
        State::Open | State::Finished => n,
    }
}

// The flag of a dimension, counted from 1, as a binary digit.
fn flag_digit(dims: u64, height: u64, d: u64) -> u64
    ensures { (result ≡ flag_digit dims height d) × (result ≤ 1) }
{
    u64::from(d <= dims && d < height)
}

// The flags as a number, from the highest dimension down.
fn flags_of(dims: u64, height: u64) -> u64
    ensures { result ≡ flags_of dims height }
{
    let mut flags = 0;
    for d in (1..8).rev() {
        flags = flag_digit(dims, height, d) + 2 * flags;
    }
    flags
}

// The six numbers of a register that stand before its lanes.
#[tactic(auto, unfolding(crate::specs::Reports::register_numbers))]
pub(crate) fn state_numbers(r: &Register) -> [u64; 6]
    ensures { register_numbers r.now ≡ result ++ lane_numbers r.now.lanes }
{
    let state = r.state;
    let dims = r.pattern.shape.dims as u64;
    [
        state_number(state),
        unless_plain(state, kind_number(r.kind)),
        r.width,
        r.valid,
        unless_plain(state, dims),
        of_stream(state, flags_of(dims, r.height)),
    ]
}

// The three numbers of a translation's report.
#[tactic(auto, unfolding(crate::specs::Reports::translation_numbers))]
pub(crate) fn translation_numbers(t: Result<usize, Refused>) -> [u64; 3]
    ensures { result ≡ translation_numbers t }
{
    match t {
        Ok(len) => [0, 0, len as u64],
        Err(refused) => [refused.refusal.number(), refused.place as u64, 0],
    }
}
