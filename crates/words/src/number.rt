// Decimal numbers read from text.
ghost use Rattle.std.specs.Prelude.{◌≡◌};
ghost use Rattle.words.specs.Decimals.{decimal_of};

// The most that text can say: a number above it is read as this.
const MOST: u64 = 4_294_967_295;

// The number that text says: one or more digits and nothing else.
pub fn decimal_of(text: &[u8]) -> Option<u64>
    ensures { result ≡ decimal_of text.now }
{
    if text.is_empty() {
        return None;
    }
    let mut value = 0;
    for b in text {
        if !b.is_ascii_digit() {
            return None;
        }
        value = (value * 10 + u64::from(b - b'0')).min(MOST);
    }
    Some(value)
}
