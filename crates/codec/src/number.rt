// Numbers in groups of seven bits, lowest group first, read by a cursor that is handed on.
ghost use Rattle.std.specs.Prelude.{◌≡◌, ◌≤◌, ◌<◌, ◌^◌, drop, IfSome};
ghost use Rattle.codec.specs.Numbers.{groups_at, number_at, signed_at, signed_of};

// A place in a sheet or a nest.
#[derive(Clone, Copy, Debug, PartialEq, Eq)]
pub struct Cursor {
    pub at: usize,
}

// The groups at a place, at most so many: the number that they give, and the place behind them.
fn groups(s: &[u8], at: usize, most: u64) -> Option<(u64, Cursor)>
    requires { most ≤ 5 }
    ensures read { result ≡ groups_at most at (drop at s.now) }
    ensures below { IfSome result (λ n. n.0 < 128 ^ most) }
{
    if most == 0 || s.len() <= at {
        return None;
    }
    let b = s[at] as u64;
    let next = at + 1;
    if b < 128 {
        return Some((b, Cursor { at: next }));
    }
    let (v, behind) = groups(s, next, most - 1)?;
    if v == 0 {
        return None;
    }
    Some((b - 128 + 128 * v, behind))
}

// The signed number that n stands for: half of an even one, below zero for an odd one.
fn signed_of(n: u64) -> i64
    requires { n < 4294967296 }
    ensures { result ≡ signed_of n }
{
    let half = (n / 2) as i64;
    if n % 2 == 0 { half } else { -1 - half }
}

impl Cursor {
    // The number at the cursor, with the place behind it.
    #[tactic(auto, unfolding(crate::specs::Numbers::number_at))]
    pub fn number(self, s: &[u8]) -> Option<(u64, Cursor)>
        ensures { result ≡ number_at s.now self.at }
    {
        let (v, behind) = groups(s, self.at, 5)?;
        if v < 4294967296 {
            Some((v, behind))
        } else {
            None
        }
    }

    // The signed number at the cursor, with the place behind it.
    pub fn signed(self, s: &[u8]) -> Option<(i64, Cursor)>
        ensures { result ≡ signed_at s.now self.at }
    {
        let (v, behind) = self.number(s)?;
        Some((signed_of(v), behind))
    }
}
