// Where a stop lies, with what the step to the next element of its row needs.
ghost use Rattle.std.specs.Prelude.{◌≡◌, ◌≤◌, not, take};
ghost use Rattle.engine.specs.Loops.{size_at};
ghost use Rattle.engine.specs.Chunks.{is_element};
ghost use Rattle.engine.specs.Registers.{index_of};
ghost use Rattle.engine.specs.Good.{Ranged, RangedPattern};
ghost use Rattle.engine.specs.AddressLaws.{Small};
ghost use Rattle.engine.specs.Places.{place_at};
ghost use Rattle.engine.specs.Walk.{is_empty};
ghost use Rattle.engine.specs.Runnings.{spotted};

use crate::address::{address, in_bytes, stride_at};
use crate::size::size_at;
use crate::stream::{Pattern, Shape};
use crate::walk::Arrival;
use codec::amounts::Bytes;

// What is reckoned at a stop: its address, the innermost size of its pass, 0 if it is no element, and the innermost stride in bytes.
#[derive(Clone, Copy)]
pub(crate) struct Spot {
    pub address: Bytes,
    pub size: u64,
    pub step: Bytes,
}

// Whether a stop is an element, each index below its size, or a pass without one. For the start of a run: on the way the walk tells it.
pub(crate) fn arrival_at(shape: &Shape, index: &[u64; 7]) -> Arrival
    requires { Ranged shape.now × Small index.now × (index.now ≡ index_of (take shape.now.dims index.now)) }
    ensures { is_empty result ≡ not (is_element (size_at shape.now) 0 (take shape.now.dims index.now)) }
{
    for d in 0..shape.dims {
        if size_at(shape, index, d) <= index[d] {
            return Arrival::EmptyPass;
        }
    }
    Arrival::Element
}

// The spot at an index, of a pattern, where a walk has come to an element or to a pass without one.
pub(crate) fn spot_at(pattern: &Pattern, width: u64, index: &[u64; 7], at: Arrival) -> Spot
    requires ranged_pattern { RangedPattern pattern.now × ((width ≤ 8) × Small index.now) }
    requires at_value { is_empty at ≡ not (is_element (size_at pattern.now.shape) 0 (take pattern.now.shape.dims index.now)) }
    ensures { spotted index.now result ≡ place_at pattern.now width index.now }
{
    let size = match at {
        Arrival::Element => size_at(&pattern.shape, index, 0),
        Arrival::EmptyPass => 0,
    };
    let stride = stride_at(pattern, index, 0);
    let along = in_bytes(stride, 1, width);
    let here = address(pattern, width, index);
    Spot {
        address: here,
        size,
        step: along,
    }
}
