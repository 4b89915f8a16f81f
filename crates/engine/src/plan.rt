// A stream at its start.
ghost use Rattle.std.specs.Prelude.{◌≡◌};
ghost use Rattle.engine.specs.Registers.{shape_of, moved_to};
ghost use Rattle.engine.specs.Good.{Accepted};

use crate::register::{Register, State};
use crate::walk::first_stop;

// The register after end: nothing has moved; open, or finished at once if there is no stop.
pub(crate) fn ended(r: Register) -> Register
    requires { Accepted (shape_of r) }
    ensures { result ≡ moved_to 0 r }
{
    let mut index = [0; 7];
    if first_stop(&r.pattern.shape, &mut index).is_some() {
        return Register {
            state: State::Open,
            moved: 0,
            index,
            height: 0,
            ..r
        };
    }
    Register {
        state: State::Finished,
        moved: 0,
        index: [0; 7],
        height: r.pattern.shape.dims as u64 + 1,
        ..r
    }
}
