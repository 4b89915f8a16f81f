// A part of a chunk: elements of one row, by the first's address, the step between them and how many there are.
ghost use Rattle.std.specs.Prelude.{◌^◌, ◌≤◌, unsigned_abs};

use codec::amounts::Bytes;

// The bounds keep the addresses of its elements far from overflowing.
#[derive(Clone, Copy)]
pub(crate) struct Part {
    pub start: Bytes,
    pub step: Bytes,
    pub count: usize,
    ghost near: { (unsigned_abs start.0 ≤ 2 ^ 55) × (unsigned_abs step.0 ≤ 2 ^ 51) },
    ghost few: { count ≤ 64 },
}
