// The passes of a run.
ghost use Rattle.std.specs.Prelude.{◌≡◌, ◌<◌, ◌≤◌, true};
ghost use Rattle.engine.specs.Good.{AllGood};
ghost use Rattle.engine.specs.HistoryLaws.{AllNamed};
ghost use Rattle.engine.specs.Sheets.{is_loop_register};
ghost use Rattle.engine.specs.Bodies.{Executed};

use crate::calculate::{carry_out, check_calculation};
use crate::layout::{lay_out, rejoined};
use crate::part::Part;
use crate::register::{Machine, State};
use crate::run::{Answer, Report};
use crate::sheet::Steps;
use codec::amounts::Bytes;
use codec::refusal::Refused;

// A run: the body, from its first calculation to its last, while the loop register's stream is open.
pub(crate) fn execute(
    vl: u64,
    register: usize,
    body: &Steps,
    m: Machine,
    memory: &mut [u8],
) -> Answer
    requires in_range { ((8 ≤ vl) × (vl ≤ 64)) × (register < 32) }
    requires all_named { AllNamed body.now.items × (AllGood vl m × (is_loop_register register body.now.items m ≡ true)) }
    ensures { Executed vl register body.now.items m memory.old result memory.new }
{
    let steps = body.as_slice();
    let len = memory.len();
    let mut lanes = [[0u8; 64]; 32];
    let mut indices = [[0u64; 7]; 32];
    let mut all = lay_out(&m, &mut lanes, &mut indices);
    let none = Part {
        start: Bytes(0),
        step: Bytes(0),
        count: 0,
    };
    let mut xs = [none; 64];
    let mut ys = [none; 64];
    let mut zs = [none; 64];
    let mut passes = 0;
    let mut calculations = 0;
    let registers = &m.registers;
    let looped = all[register];
    let mut open = looped.state == State::Open;
    while open {
        for step in steps {
            let c = step.calculation;
            let task = c.task;
            let i = c.first;
            let j = c.second;
            let t = c.destination;
            let a = all[i];
            let b = all[j];
            let d = all[t];
            let mut va = indices[i];
            let mut vb = indices[j];
            let mut vd = indices[t];
            let checked = check_calculation(
                task,
                vl,
                i == j,
                a,
                b,
                d,
                len,
                &registers[i].pattern,
                &registers[j].pattern,
                &registers[t].pattern,
                &mut va,
                &mut vb,
                &mut vd,
                &mut xs,
                &mut ys,
                &mut zs,
            );
            let o = match checked {
                Ok(o) => o,
                Err(x) => {
                    return Answer {
                        verdict: Err(Refused {
                            refusal: x,
                            place: step.place,
                        }),
                        report: Report {
                            passes,
                            calculations,
                        },
                        machine: rejoined(m, &lanes, &indices, all),
                    };
                }
            };
            let mut la = lanes[i];
            let mut lb = lanes[j];
            let mut ld = lanes[t];
            let first = o.first;
            let second = o.second;
            let destination = o.destination;
            let e = carry_out(
                task,
                i == j,
                a.width,
                a,
                b,
                d,
                first,
                second,
                destination,
                &xs,
                &ys,
                &zs,
                &mut la,
                &mut lb,
                &mut ld,
                memory,
            );
            let f = e.first;
            let s = e.second;
            let w = e.destination;
            all[i] = f;
            lanes[i] = la;
            indices[i] = va;
            all[j] = s;
            lanes[j] = lb;
            indices[j] = vb;
            all[t] = w;
            lanes[t] = ld;
            indices[t] = vd;
            calculations += 1;
        }
        passes += 1;
        let after = all[register];
        open = after.state == State::Open;
    }
    Answer {
        verdict: Ok(()),
        report: Report {
            passes,
            calculations,
        },
        machine: rejoined(m, &lanes, &indices, all),
    }
}
