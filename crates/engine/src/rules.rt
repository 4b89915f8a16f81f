// The rules on a shape's descriptors: low, high, product.
ghost use Rattle.std.specs.Prelude.{◌≡◌, suc, ◌<◌, false, drop, nat_lt};
ghost use Rattle.std.specs.Int.Signed.{non_neg};
ghost use Rattle.engine.specs.Rules.{last_index, high_at, low_at, low_or_high, product, highs_of};
ghost use Rattle.engine.specs.AddressLaws.{Small};
ghost use Rattle.engine.specs.Good.{Ranged};

use crate::gain::gains;
use crate::stream::Shape;
use codec::operation::Parameter;

// The last index of a dimension by its high: the larger of 1 and the high, less 1.
fn last_index(high: u64) -> u64
    ensures { result ≡ last_index high }
{
    high.max(1) - 1
}

// The high of dimension `d` of a shape, where `lasts` are the last indices of the dimensions outside it.
fn high_at(shape: &Shape, lasts: &[u64; 7], d: usize) -> u64
    requires { Ranged shape.now × (d < 7) × Small lasts.now }
    ensures { result ≡ high_at shape.now d (drop (suc d) lasts.now) }
{
    shape.sizes[d] + gains(shape, Parameter::Size, lasts, d).up
}

// Whether its low is 0 or more.
fn low_holds(shape: &Shape, lasts: &[u64; 7], d: usize) -> bool
    requires { Ranged shape.now × (d < 7) × Small lasts.now }
    ensures { result ≡ non_neg (low_at shape.now d (drop (suc d) lasts.now)) }
{
    gains(shape, Parameter::Size, lasts, d).down <= shape.sizes[d]
}

// Whether some low is below 0 or some high above 4,096: from the outermost dimension inward, up to the first such.
pub(crate) fn low_or_high(s: Shape) -> bool
    requires { Ranged s }
    ensures { result ≡ low_or_high s }
{
    let mut lasts: [u64; 7] = [0; 7];
    for d in (0..s.dims).rev() {
        if !low_holds(&s, &lasts, d) {
            return true;
        }
        let high = high_at(&s, &lasts, d);
        if 4096 < high {
            return true;
        }
        lasts[d] = last_index(high);
    }
    false
}

// Whether the product over all dimensions of the larger of 1 and the high is above 1,048,576: from the outermost dimension
// inward, up to where it is.
pub(crate) fn product_over(s: Shape) -> bool
    requires { Ranged s × (low_or_high s ≡ false) }
    ensures { result ≡ nat_lt 1048576 (product (highs_of s)) }
{
    let mut lasts: [u64; 7] = [0; 7];
    let mut over: u64 = 1;
    for d in (0..s.dims).rev() {
        let high = high_at(&s, &lasts, d);
        over *= high.max(1);
        if 1048576 < over {
            return true;
        }
        lasts[d] = last_index(high);
    }
    false
}
