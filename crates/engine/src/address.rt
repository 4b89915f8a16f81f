// Where an element lies.
ghost use Rattle.std.specs.Prelude.{◌≡◌, suc, ◌+◌, ◌^◌, ◌<◌, ◌≤◌, drop, pos, ◌+ℤ◌, ◌*ℤ◌, slice_index, unsigned_abs};
ghost use Rattle.std.proofs.Math.IntN.{sub_ℕ};
ghost use Rattle.engine.specs.Addresses.{offset_at, stride_at, in_bytes};
ghost use Rattle.engine.specs.AddressLaws.{Small, Is};
ghost use Rattle.engine.specs.Good.{RangedPattern};

use crate::gain::{UpDown, gains};
use crate::stream::Pattern;
use codec::amounts::{Bytes, Elements};
use codec::operation::Parameter;

// What modifiers move a parameter by.
#[derive(Clone, Copy)]
struct Change(i64);

// What adding modifiers add less what subtracting ones take.
fn change_of(g: UpDown) -> Change
    requires { (g.up ≤ 34359738368) × (g.down ≤ 34359738368) }
    ensures { Is (sub_ℕ g.up g.down) (2 ^ 35) result.0 }
{
    Change(g.up as i64 - g.down as i64)
}

// An offset counts bytes and a stride elements: each type has its own sum.
fn bytes_moved(a: Bytes, by: Change) -> Bytes
    requires { (unsigned_abs a.0 ≤ 2 ^ 20) × (unsigned_abs by.0 ≤ 2 ^ 35) }
    ensures { Is (a.0 +ℤ by.0) (2 ^ 36) result.0 }
{
    Bytes(a.0 + by.0)
}

fn elements_moved(a: Elements, by: Change) -> Elements
    requires { (unsigned_abs a.0 ≤ 2 ^ 20) × (unsigned_abs by.0 ≤ 2 ^ 35) }
    ensures { Is (a.0 +ℤ by.0) (2 ^ 36) result.0 }
{
    Elements(a.0 + by.0)
}

// So many strides in bytes: the one place where elements become bytes.
pub(crate) fn in_bytes(stride: Elements, index: u64, width: u64) -> Bytes
    requires { (unsigned_abs stride.0 ≤ 2 ^ 36) × (index ≤ 4096) × (width ≤ 8) }
    ensures { Is (in_bytes stride.0 index width) (2 ^ 51) result.0 }
{
    let n = index * width;
    Bytes(stride.0 * (n as i64))
}

// The sum of two amounts of bytes.
pub(crate) fn plus(a: Bytes, b: Bytes) -> Bytes
    requires { (unsigned_abs a.0 ≤ 2 ^ 61) × (unsigned_abs b.0 ≤ 2 ^ 61) }
    ensures { Is (a.0 +ℤ b.0) (unsigned_abs a.0 + unsigned_abs b.0) result.0 }
{
    Bytes(a.0 + b.0)
}

// So many steps of so many bytes.
pub(crate) fn times(step: Bytes, n: u64) -> Bytes
    requires { (unsigned_abs step.0 ≤ 2 ^ 51) × (n ≤ 64) }
    ensures { Is (step.0 *ℤ pos n) (2 ^ 57) result.0 }
{
    Bytes(step.0 * (n as i64))
}

// What a dimension adds to the address: its offset, which counts bytes, and its stride times its index, in bytes.
fn offset_and_stride(offset: Bytes, stride: Elements, index: u64, width: u64) -> Bytes
    requires { (unsigned_abs offset.0 ≤ 2 ^ 36) × (unsigned_abs stride.0 ≤ 2 ^ 36) × (index ≤ 4096) × (width ≤ 8) }
    ensures { Is (offset.0 +ℤ in_bytes stride.0 index width) (2 ^ 52) result.0 }
{
    plus(offset, in_bytes(stride, index, width))
}

// The offset of dimension `d`, in bytes, of a pattern, where the dimensions outside it stand at the indices of `index` above
// `d`.
fn offset_at(pattern: &Pattern, index: &[u64; 7], d: usize) -> Bytes
    requires { RangedPattern pattern.now × (d < 7) × Small index.now }
    ensures { Is (offset_at pattern.now d (drop (suc d) index.now)) (2 ^ 36) result.0 }
{
    let offset = pattern.offsets[d];
    if pattern.shape.mods == 0 {
        return offset;
    }
    let g = gains(&pattern.shape, Parameter::Offset, index, d);
    bytes_moved(offset, change_of(g))
}

// Its stride, in elements.
pub(crate) fn stride_at(pattern: &Pattern, index: &[u64; 7], d: usize) -> Elements
    requires { RangedPattern pattern.now × (d < 7) × Small index.now }
    ensures { Is (stride_at pattern.now d (drop (suc d) index.now)) (2 ^ 36) result.0 }
{
    let stride = pattern.strides[d];
    if pattern.shape.mods == 0 {
        return stride;
    }
    let g = gains(&pattern.shape, Parameter::Stride, index, d);
    elements_moved(stride, change_of(g))
}

// What dimension `d` of a pattern adds.
fn term(pattern: &Pattern, width: u64, index: &[u64; 7], d: usize) -> Bytes
    requires { RangedPattern pattern.now × (width ≤ 8) × (d < 7) × Small index.now }
    ensures { Is (offset_at pattern.now d (drop (suc d) index.now) +ℤ in_bytes (stride_at pattern.now d (drop (suc d) index.now)) (slice_index index.now d) width) (2 ^ 52) result.0 }
{
    let offset = offset_at(pattern, index, d);
    let stride = stride_at(pattern, index, d);
    offset_and_stride(offset, stride, index[d], width)
}

// The address of the element at the indices `index`, where there is no modifier.
fn plain_address(pattern: &Pattern, width: u64, index: &[u64; 7]) -> Bytes
    requires { RangedPattern pattern.now × (width ≤ 8) × Small index.now × (pattern.now.shape.mods ≡ 0) }
    ensures { Is (Rattle.engine.specs.Addresses.address pattern.now width index.now) (2 ^ 55) result.0 }
{
    let mut sum = pattern.base;
    for d in 0..pattern.shape.dims {
        let t = offset_and_stride(pattern.offsets[d], pattern.strides[d], index[d], width);
        sum = plus(sum, t);
    }
    sum
}

// The address of the element at the indices `index`, of a pattern: base + the sum over dimensions of (offset + stride x
// index x width).
pub(crate) fn address(pattern: &Pattern, width: u64, index: &[u64; 7]) -> Bytes
    requires { RangedPattern pattern.now × (width ≤ 8) × Small index.now }
    ensures { Is (Rattle.engine.specs.Addresses.address pattern.now width index.now) (2 ^ 55) result.0 }
{
    if pattern.shape.mods == 0 {
        return plain_address(pattern, width, index);
    }
    let mut sum = pattern.base;
    for d in 0..pattern.shape.dims {
        let t = term(pattern, width, index, d);
        sum = plus(sum, t);
    }
    sum
}
