// Loop nests: their numbers, and the answers about them.
ghost use Rattle.std.specs.Prelude.{◌≡◌};
ghost use Rattle.translator.specs.Fields.{no_access, no_nest, nest_of};

use codec::amounts::{Bytes, Elements};
use codec::header::Width;
use codec::operation::Action;
use engine::run::Answer;

// Where a source or the destination lies: a base in bytes, and for each loop, innermost first, a stride in elements.
#[derive(Clone, Copy)]
pub struct Access {
    pub base: Bytes,
    pub strides: [Elements; 7],
}

// The numbers of a nest. Loops are counted from 0 here, innermost first; the coupled loop is counted from 1, 0 is none. The term of
// loop t for loop o outside it stands at 7 * t + o. Places that no loop uses hold 0. The coupled loop is no Option: what a nest promises
// (NestNumbers, Promise 3) is stated over the numbers as they stand in its bytes.
#[derive(Clone, Copy)]
pub struct Nest {
    pub width: Width,
    pub loops: usize,
    pub coupled: u64,
    pub action: Action,
    pub counts: [u64; 7],
    pub terms: [i64; 49],
    pub first: Access,
    pub second: Access,
    pub destination: Access,
}

impl Access {
    // An access with no number yet.
    fn new() -> Access
        ensures { result ≡ no_access }
    {
        Access {
            base: Bytes(0),
            strides: [Elements(0); 7],
        }
    }
}

impl Nest {
    // A nest with no number yet but the first four.
    pub(crate) fn new(width: Width, loops: usize, coupled: u64, action: Action) -> Nest
        ensures { result ≡ nest_of width loops coupled action no_nest.counts no_nest.terms no_access no_access no_access }
    {
        Nest {
            width,
            loops,
            coupled,
            action,
            counts: [0; 7],
            terms: [0; 49],
            first: Access::new(),
            second: Access::new(),
            destination: Access::new(),
        }
    }
}

// Where the answer of a nest was found: at the lengths (15), in the nest, or in the run of its sheet. Places are places of the nest for
// the first two, of the sheet for the last.
#[derive(Clone, Copy, Debug, PartialEq, Eq)]
pub enum Stage {
    Lengths,
    Nest,
    Sheet,
}

// The answer of a nest that was to be translated and run.
#[derive(Clone, Copy)]
pub struct NestAnswer {
    pub stage: Stage,
    pub answer: Answer,
}
