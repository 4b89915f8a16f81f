// Text on standard output, or on what else prints, and the words that several files share.
ghost use Rattle.std.specs.Prelude.{◌≡◌, Some, unsigned_abs};
ghost use Rattle.std.specs.Fmt.{signed_decimal};
ghost use Rattle.words.specs.Texts.{counted};

use std::fmt;

// Writes some text.
pub fn say(out: &impl Print, text: &[u8]) {
    let _ = out.write_all(text);
}

// A number without its sign.
pub fn magnitude(z: i64) -> u64
    ensures { result ≡ unsigned_abs z }
{
    z.unsigned_abs()
}

// A number, with a minus sign if it is below 0.
#[derive(Clone, Copy)]
pub struct Signed(pub i64);

impl fmt::Display for Signed {
    ghost output = { λ z. Some (signed_decimal z.0) };

    fn fmt<W: fmt::Write>(&self, f: &mut fmt::Formatter<W>) -> fmt::Result {
        let Signed(z) = *self;
        if z < 0 {
            write!(f, "-{}", magnitude(z))
        } else {
            write!(f, "{}", magnitude(z))
        }
    }
}

// A number and the word for it: one of a thing, or several.
#[derive(Clone, Copy)]
pub struct Counted<'a>(pub u64, pub &'a str, pub &'a str);

impl fmt::Display for Counted<'_> {
    ghost output = { λ c. Some (counted c.0 c.1.now c.2.now) };

    fn fmt<W: fmt::Write>(&self, f: &mut fmt::Formatter<W>) -> fmt::Result {
        let Counted(count, one, several) = *self;
        let word = if count == 1 { one } else { several };
        write!(f, "{count} {word}")
    }
}
