// A register while a sheet runs: what changes with every chunk, with where the stream stands in its row. Its lanes and the
// indices of its stop are in arrays beside it, which can be lent; its descriptors stay in the machine.
ghost use Rattle.std.specs.Prelude.{◌≡◌, ◌+◌, ◌^◌, ◌<◌, if◌then◌else◌};
ghost use Rattle.engine.specs.declared.register.State.TheVariants.{Open, Finished};
ghost use Rattle.engine.specs.Runnings.{gone_by, behind};

use crate::ahead::Ahead;
use crate::register::State;
use codec::amounts::Bytes;
use codec::header::Kind;

// `index` is the innermost. Of an open stream `address`, `size` and `step` are the next element's address, the innermost size of its
// pass and the innermost stride in bytes; where it stands at a coupled pass that holds no element, `size` is 0.
#[derive(Clone, Copy)]
pub(crate) struct Running {
    pub state: State,
    pub kind: Kind,
    pub width: u64,
    pub valid: u64,
    pub moved: u64,
    pub height: u64,
    pub index: u64,
    pub address: Bytes,
    pub size: u64,
    pub step: Bytes,
}

// A running register once more, made where it is needed: the first need not lie in memory. `r` itself, tried, adds words 3 in 100 slower.
pub(crate) fn again(r: Running) -> Running
    ensures { result ≡ r }
{
    Running { ..r }
}

// Open, or finished.
fn open_if(found: bool) -> State
    ensures { result ≡ (if found then Open else Finished) }
{
    if found { State::Open } else { State::Finished }
}

// How many stops so many lanes go past: as many, or the one coupled pass that holds no element.
fn gone_by(r: Running, n: usize) -> u64
    ensures { result ≡ gone_by r n }
{
    if r.size == 0 { 1 } else { n as u64 }
}

// Behind a chunk that was looked at.
pub(crate) fn moved_on(r: Running, o: Ahead) -> Running
    requires { r.moved + gone_by r o.count < 2 ^ 32 }
    ensures { result ≡ behind o r }
{
    Running {
        state: open_if(o.found),
        moved: r.moved + gone_by(r, o.count),
        height: o.height,
        index: o.index,
        address: o.address,
        size: o.size,
        step: o.step,
        ..r
    }
}
