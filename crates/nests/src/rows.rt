// Rows: a nest run by the translator's `run_nest`, on the compiled engine, and by the plain loop of plain.rt, at eight vector lengths, each
// time on two memories that are alike before and are compared after.
ghost use Rattle.std.specs.Prelude.{◌≤◌};

use crate::line::Line;
use crate::plain::Nest;
use translator::nest::{NestAnswer, Stage};
use translator::run::run_nest;
use words::text::say;

// The bytes of a memory.
const SIZE: usize = 16384;

// A refusal's number and its place.
#[derive(Clone, Copy, Default, PartialEq, Eq)]
struct Fault {
    number: u64,
    place: u64,
}

// How a run ends: where the answer was found, and the refusal, if there is one.
#[derive(Clone, Copy, PartialEq, Eq)]
struct Ending {
    stage: Stage,
    fault: Option<Fault>,
}

// What a row must show: how the runs end, and at how many of eight vector lengths, from the first in steps of 8, memory is as it must be.
#[derive(Clone, Copy)]
struct Want {
    ending: Ending,
    same: u64,
    first: u64,
}

// A row: its name, its nest, and what it must show.
#[derive(Clone, Copy)]
pub(crate) struct Row<'a, 'b> {
    name: &'a [u8],
    nest: &'b [u8],
    want: Want,
}

// What one vector length shows: the visits of the plain loop, how the run ended, and the first byte at which memory is not as it must be.
#[derive(Clone, Copy)]
struct Compared {
    visits: u64,
    ending: Ending,
    byte: Option<usize>,
}

// What a row shows: the visits, at how many lengths the run ended as it must, and how it ended at the last; at how many memory was as it
// must be, and the first length and byte at which it was not.
#[derive(Clone, Copy)]
struct Shown {
    visits: u64,
    ended: u64,
    last: Ending,
    same: u64,
    differs: Option<(u64, usize)>,
}

// Fills a memory with bytes that do not repeat soon.
fn fill(memory: &mut [u8]) {
    let mut x: u64 = 1;
    for byte in memory.iter_mut() {
        x = (x * 25173 + 13849) % 65536;
        *byte = (x / 256) as u8;
    }
}

impl Ending {
    // With a refusal's number and place; number 0 is none.
    fn new(stage: Stage, number: u64, place: u64) -> Self {
        Ending {
            stage,
            fault: if number == 0 {
                None
            } else {
                Some(Fault { number, place })
            },
        }
    }

    fn of(given: &NestAnswer) -> Self {
        Ending {
            stage: given.stage,
            fault: given.answer.verdict.err().map(|refused| Fault {
                number: refused.refusal.number(),
                place: refused.place as u64,
            }),
        }
    }
}

impl Want {
    // What the row of a line must show, by the first letter of its kind; the file crates/nests/stdin tells the kinds. (`agree` is `differ`
    // at 0.)
    fn of(kind: u8, [a, b]: [u64; 2]) -> Self {
        let done = Want {
            ending: Ending::new(Stage::Sheet, 0, 0),
            same: 8,
            first: 8,
        };
        match kind {
            b'o' => Want {
                ending: Ending::new(Stage::Sheet, 14, a),
                ..done
            },
            b'r' => Want {
                ending: Ending::new(Stage::Nest, a, b),
                ..done
            },
            b'l' => Want {
                ending: Ending::new(Stage::Lengths, 15, 0),
                first: a,
                ..done
            },
            _ => Want {
                same: 8u64.wrapping_sub(a),
                ..done
            },
        }
    }
}

// Changes a memory as a run must that ends so, and counts the visits. That is the plain loop if nothing is refused; with 14 the plain loop
// of the chunks before the one that has an element outside memory; nothing if the nest or the vector length is refused.
fn expected(nest: &Nest, vl: u64, fault: Option<Fault>, memory: &mut [u8]) -> u64 {
    match fault {
        None => nest.tour(memory, None).visits,
        Some(Fault { number: 14, .. }) => {
            let tried = nest.tour(&mut [0; SIZE], None);
            let stop = tried.stop.map(|stop| nest.whole_chunks(vl, stop));
            nest.tour(memory, stop).visits
        }
        Some(_) => 0,
    }
}

fn at_length(nest: &[u8], vl: u64, fault: Option<Fault>) -> Compared {
    let mut memory = [0u8; SIZE];
    let mut plain = [0u8; SIZE];
    fill(&mut memory);
    fill(&mut plain);
    let visits = expected(&Nest::read(nest), vl, fault, &mut plain);
    let ending = Ending::of(&run_nest(nest, vl, &mut memory));
    Compared {
        visits,
        ending,
        byte: memory.iter().zip(&plain).position(|(a, b)| a != b),
    }
}

impl<'a, 'b> Row<'a, 'b> {
    // The row of a line; none if it cannot be read. Its nest is put into a room.
    pub(crate) fn read(line: &Line<'a>, room: &'b mut [u8; 128]) -> Option<Self> {
        Some(Row {
            name: line.name()?,
            nest: line.nest(room)?,
            want: Want::of(line.kind, line.numbers()?),
        })
    }

    fn shown(&self) -> Shown {
        let wanted = self.want.ending;
        let mut shown = Shown {
            visits: 0,
            ended: 0,
            last: wanted,
            same: 0,
            differs: None,
        };
        for k in 0..8 {
            let vl = self.want.first.wrapping_add(8 * k);
            let compared = at_length(self.nest, vl, wanted.fault);
            shown.visits = compared.visits;
            shown.last = compared.ending;
            if compared.ending == wanted {
                shown.ended += 1;
            }
            match compared.byte {
                None => shown.same += 1,
                Some(byte) => shown.differs = shown.differs.or(Some((vl, byte))),
            }
        }
        shown
    }

    // Writes what the row shows, and answers whether that is what it must.
    pub(crate) fn write(&self, out: &impl Print) -> bool {
        let wanted = self.want;
        let Shown {
            visits,
            ended,
            last,
            same,
            differs,
        } = self.shown();
        say(out, self.name);
        let _ = match wanted.ending.fault {
            None if wanted.same == 8 => print!(out;
                ": {visits} visits, agree at {same} of 8 lengths"
            ),
            None => print!(out;
                ": {visits} visits, differs at {} of 8 lengths, as it must",
                8u64.wrapping_sub(same)
            ),
            Some(Fault { number: 14, place }) => {
                print!(out;
                    ": {visits} visits, refused with 14 at {place}, earlier chunks written, at {same} of 8 lengths"
                )
            }
            Some(Fault { number, place }) => {
                print!(out;
                    ": refused with {number} at {place}, memory untouched, at {same} of 8 lengths"
                )
            }
        };
        let right = ended == 8 && same == wanted.same;
        if !right {
            let Fault { number, place } = last.fault.unwrap_or_default();
            let (length, byte) = differs.unwrap_or_default();
            let _ = print!(out;
                "; NOT AS IT MUST BE: ended so at {ended} lengths, at the last with {number} at {place}"
            );
            let _ = print!(out; "; memory differs first at length {length}, byte {byte}");
        }
        say(out, b"\n");
        right
    }
}
