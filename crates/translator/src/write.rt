// The sheet of a nest, written onto a page.
ghost use Rattle.std.specs.Prelude.{◌<◌, ◌≤◌, ◌≡◌, map};
ghost use Rattle.codec.specs.declared.operation.Operation.TheVariants as op;
ghost use Rattle.translator.specs.NestSheets.{modifiers_at, modifier_op, dimension_of, dimension_ops, stream_ops};
ghost use Rattle.translator.specs.Pages.{Blank, put_one, put_all, put_calculation, SheetPage};

use crate::nest::{Access, Nest};
use crate::rules::{coupling_of, modifier_of};
use codec::amounts::Bytes;
use codec::header::{Header, Kind};
use codec::operation::{Calculation, Dimension, Modifier, Operation, Task};
use codec::writing::{put_calculation, put_operation};

// A sheet that is being written: its bytes, and the place behind them. The codec writes at a place of a lent slice, and leaves the slice
// as it was where there is no room: so the bytes are an array with a place and no vector.
#[derive(Drop)]
pub(crate) struct Page {
    pub(crate) bytes: [u8; 1024],
    pub(crate) at: usize,
}

impl Page {
    // A page on which nothing is written.
    fn new() -> Page
        ensures { Blank result }
    {
        Page {
            bytes: [0; 1024],
            at: 0,
        }
    }

    // One operation more.
    #[tactic(auto, unfolding(crate::specs::Pages::put_one))]
    fn put(&mut self, o: Operation)
        ensures { self.new ≡ put_one o self.old }
    {
        self.at = put_operation(&mut self.bytes, self.at, o).unwrap_or(self.at);
    }

    // One calculation more.
    #[tactic(auto, unfolding(crate::specs::Pages::put_calculation))]
    fn put_last(&mut self, c: Calculation)
        ensures { self.new ≡ put_calculation c self.old }
    {
        self.at = put_calculation(&mut self.bytes, self.at, c).unwrap_or(self.at);
    }

    // The modifiers that dimension `d` owns, targets ascending.
    fn put_terms(&mut self, m: &Nest, register: usize, d: usize)
        requires { d < 7 }
        ensures { self.new ≡ put_all (map (modifier_op register) (modifiers_at m.now d 0 d)) self.old }
    {
        for t in 0..d {
            if let Some(q) = modifier_of(m, d, t) {
                self.put(Operation::Modifier(Modifier {
                    register,
                    target: q.target as u64,
                    parameter: q.parameter,
                    behaviour: q.behaviour,
                    displacement: q.displacement,
                }));
            }
        }
    }

    // Dimension `d`.
    fn put_dimension(&mut self, m: &Nest, register: usize, a: &Access, d: usize)
        requires { d < 7 }
        ensures { self.new ≡ put_one (op.Dimension (dimension_of m.now register a.now d)) self.old }
    {
        self.put(Operation::Dimension(Dimension {
            register,
            offset: Bytes(0),
            size: m.counts[d],
            stride: a.strides[d],
        }));
    }

    // All dimensions of an access, each followed by its modifiers.
    fn put_dimensions(&mut self, m: &Nest, register: usize, a: &Access)
        requires { m.now.loops ≤ 7 }
        ensures { self.new ≡ put_all (dimension_ops m.now register a.now 0 m.now.loops) self.old }
    {
        for d in 0..m.loops {
            self.put_dimension(m, register, a, d);
            self.put_terms(m, register, d);
        }
    }

    // A stream: open, its dimensions, end.
    fn put_stream(&mut self, m: &Nest, register: usize, kind: Kind, a: &Access)
        requires { m.now.loops ≤ 7 }
        ensures { self.new ≡ put_all (stream_ops m.now register kind a.now) self.old }
    {
        let header = Header {
            kind,
            width: m.width,
            register,
            coupling: coupling_of(m.coupled),
        };
        self.put(Operation::Open(header, a.base));
        self.put_dimensions(m, register, a);
        self.put(Operation::End(register));
    }
}

// A page with the whole sheet of a nest: two loads, a store, and the run of one calculation.
pub(crate) fn sheet_page(m: &Nest) -> Page
    requires { m.now.loops ≤ 7 }
    ensures { SheetPage m.now result }
{
    let mut page = Page::new();
    page.put_stream(m, 1, Kind::Load, &m.first);
    page.put_stream(m, 2, Kind::Load, &m.second);
    page.put_stream(m, 3, Kind::Store, &m.destination);
    page.put(Operation::Run(1, 1));
    page.put_last(Calculation {
        task: Task::Each(m.action),
        destination: 3,
        first: 1,
        second: 2,
    });
    page
}
