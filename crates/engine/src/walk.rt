// The walk over a stream's loops: from any element to the next, and from any stop to the next, with no list built.
ghost use Rattle.std.specs.Prelude.{◌≡◌, ℕ, suc, ◌<◌, ◌≤◌, true, [], ◌∷◌, ◌++◌, map, length, drop, replicate, if◌then◌else◌, slice_index, slice_index_or};
ghost use Rattle.std.specs.Option.{is_some};
ghost use Rattle.engine.specs.Loops.{size_at, join, elements};
ghost use Rattle.engine.specs.Chunks.{stops, pass_stops};
ghost use Rattle.engine.specs.Registers.{index_of};
ghost use Rattle.engine.specs.Good.{Accepted};
ghost use Rattle.engine.specs.BoundLaws.{Under};
ghost use Rattle.engine.specs.Walk.{at, after, passes_after, Searched, Element, Stands, Stop, Arrives, Comes, is_empty, comes_empty};

use crate::size::size_at;
use crate::stream::Shape;

// Of the dimensions from bottom to below top, those outside them standing: to the first indices to come, where dimension start is about
// to run the index that it has; whether there are any. The indices move in place. A dimension's size depends on the indices outside it
// only: it is reckoned on the way down, and stays for the way up.
fn seek(shape: &Shape, index: &mut [u64; 7], start: usize, bottom: usize, top: usize) -> bool
    requires accepted { Accepted shape.now × ((bottom ≤ start) × (start < top)) × ((top ≤ shape.now.dims) × (length index.old ≡ 7)) }
    requires by_index { ((k : ℕ) → slice_index index.old k ≤ 4096) × Under shape.now (suc start) (drop (suc start) index.old) }
    ensures index_value { at (size_at shape.now) bottom top start index.old ≡ (if result then drop bottom index.new ∷ after (size_at shape.now) bottom top (drop bottom index.new) else []) }
    ensures searched { Searched shape.now bottom top index.old index.new result }
{
    // of the dimensions from d outwards, 0 where it is not reckoned yet
    let mut sizes: [u64; 7] = [0; 7];
    let mut d = start;
    let mut size = size_at(shape, &*index, d);
    sizes[d] = size;
    loop {
        let i = index[d];
        if i < size {
            if d == bottom {
                return true;
            }
            d -= 1;
            index[d] = 0;
            size = size_at(shape, &*index, d);
            sizes[d] = size;
        } else {
            d += 1;
            if top <= d {
                return false;
            }
            let j = index[d];
            index[d] = j + 1;
            size = sizes[d];
            if size == 0 {
                size = size_at(shape, &*index, d);
                sizes[d] = size;
            }
        }
    }
}

// ---- elements

// To the first element of the stream.
pub(crate) fn first(shape: &Shape, index: &mut [u64; 7]) -> bool
    requires { Accepted shape.now }
    ensures { Stands shape.now 0 result index.new }
{
    *index = [0; 7];
    let n = shape.dims;
    seek(shape, index, n - 1, 0, n)
}

// To the element after the one at an index, whatever position it has.
pub(crate) fn next(shape: &Shape, index: &mut [u64; 7]) -> bool
    requires { Accepted shape.now × Element shape.now index.old }
    ensures { (k : ℕ) → k < length (elements shape.now) → index.old ≡ index_of (slice_index_or (elements shape.now) k []) → Stands shape.now (suc k) result index.new }
{
    let n = shape.dims;
    let i = index[0];
    index[0] = i + 1;
    seek(shape, index, 0, 0, n)
}

// ---- stops

// A stop to which a walk has come: an element, or a coupled pass that holds none.
#[derive(Clone, Copy)]
pub(crate) enum Arrival {
    Element,
    EmptyPass,
}

// The indices with those of the first dimensions, so many, 0.
fn cleared(index: [u64; 7], n: usize) -> [u64; 7]
    requires { n ≤ 7 }
    ensures { result ≡ replicate n 0 ++ drop n index }
{
    let mut r = index;
    r[..n].fill(0);
    r
}

// To the first stop of the pass of dimension c, counted from 1, at the indices outside it.
fn enter(shape: &Shape, index: &mut [u64; 7], c: usize) -> Arrival
    requires accepted { Accepted shape.now × ((1 ≤ c) × (c ≤ shape.now.dims)) × (length index.old ≡ 7) }
    requires under { Under shape.now c (drop c index.old) }
    ensures { Comes shape.now c (pass_stops (size_at shape.now) c (drop c index.old)) true (is_empty result) index.new }
{
    let from = *index;
    let start = cleared(from, c);
    *index = start;
    if seek(shape, index, c - 1, 0, c) {
        return Arrival::Element;
    }
    *index = start;
    Arrival::EmptyPass
}

// To the first stop of the passes of dimension c, counted from 1, that are to come, where dimension start, outside them, is about to run
// the index that it has.
fn to_pass(shape: &Shape, index: &mut [u64; 7], start: usize, c: usize) -> Option<Arrival>
    requires accepted { Accepted shape.now × ((1 ≤ c) × (c ≤ start)) × ((start < shape.now.dims) × (length index.old ≡ 7)) }
    requires by_index { ((k : ℕ) → slice_index index.old k ≤ 4096) × Under shape.now (suc start) (drop (suc start) index.old) }
    ensures { Comes shape.now c (join (map (pass_stops (size_at shape.now) c) (at (size_at shape.now) c shape.now.dims start index.old))) (is_some result) (comes_empty result) index.new }
{
    let dims = shape.dims;
    if seek(shape, index, start, c, dims) {
        return Some(enter(shape, index, c));
    }
    None
}

// To the first stop of the passes of dimension c, counted from 1, after the one at the indices outside it.
fn next_pass(shape: &Shape, index: &mut [u64; 7], c: usize) -> Option<Arrival>
    requires accepted { Accepted shape.now × ((1 ≤ c) × (c ≤ shape.now.dims)) × (length index.old ≡ 7) }
    requires by_index { ((k : ℕ) → slice_index index.old k ≤ 4096) × Under shape.now c (drop c index.old) }
    ensures { Comes shape.now c (join (map (pass_stops (size_at shape.now) c) (passes_after (size_at shape.now) c shape.now.dims (drop c index.old)))) (is_some result) (comes_empty result) index.new }
{
    let dims = shape.dims;
    if dims <= c {
        return None;
    }
    let j = index[c];
    index[c] = j + 1;
    to_pass(shape, index, c, c)
}

// To the first stop of the stream.
pub(crate) fn first_stop(shape: &Shape, index: &mut [u64; 7]) -> Option<Arrival>
    requires { Accepted shape.now }
    ensures { Arrives shape.now 0 (is_some result) (comes_empty result) index.new }
{
    let Some(coupled) = shape.coupling else {
        return first(shape, index).then_some(Arrival::Element);
    };
    let dims = shape.dims;
    let c = coupled as usize;
    *index = [0; 7];
    if dims <= c {
        return Some(enter(shape, index, c));
    }
    to_pass(shape, index, dims - 1, c)
}

// To the stop after the one at an index, whatever position it has.
pub(crate) fn next_stop(shape: &Shape, index: &mut [u64; 7], from: Arrival) -> Option<Arrival>
    requires { Accepted shape.now × Stop shape.now index.old (is_empty from) }
    ensures { (k : ℕ) → k < length (stops shape.now) → index.old ≡ index_of (slice_index_or (stops shape.now) k []) → Arrives shape.now (suc k) (is_some result) (comes_empty result) index.new }
{
    let Some(coupled) = shape.coupling else {
        return next(shape, index).then_some(Arrival::Element);
    };
    let c = coupled as usize;
    if let Arrival::EmptyPass = from {
        return next_pass(shape, index, c);
    }
    let inner = index[0];
    index[0] = inner + 1;
    if seek(shape, index, 0, 0, c) {
        return Some(Arrival::Element);
    }
    next_pass(shape, index, c)
}

// To the stop at a position, counted from 0.
pub(crate) fn nth_stop(shape: &Shape, index: &mut [u64; 7], n: u64) -> Option<Arrival>
    requires { Accepted shape.now }
    ensures { Arrives shape.now n (is_some result) (comes_empty result) index.new }
{
    let mut here = first_stop(shape, index);
    for _k in 0..n {
        here = next_stop(shape, index, here?);
    }
    here
}
