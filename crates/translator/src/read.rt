// A nest read from bytes: number by number, each checked for its range before the next.
ghost use Rattle.std.specs.Prelude.{◌≡◌, ◌∷◌, ◌+◌, ◌-◌, ◌<◌, ◌≤◌, IfOk};
ghost use Rattle.translator.specs.Fields.{head_fields, rest_fields, term_fields, loop_fields, no_nest, count, between, holds};
ghost use Rattle.translator.specs.Reading.{read_from, nested_of, nest_at};
ghost use Rattle.translator.specs.Parts.{number_within, signed_within, part_of, side_of, strides_at, access_at};

use crate::nest::{Access, Nest};
use crate::rules::why_not;
use codec::amounts::{Bytes, Elements};
use codec::header::Width;
use codec::number::Cursor;
use codec::operation::{Action, in_reach};
use codec::refusal::{Refusal, Refused};

// A number from `least` to `most`, and the place behind it.
fn number(s: &[u8], c: Cursor, least: u64, most: u64) -> Result<(u64, Cursor), Refused>
    ensures { result ≡ number_within s.now c.at (holds (between least most)) }
{
    let place = c.at;
    let Some((n, next)) = c.number(s) else {
        return Err(Refused {
            refusal: Refusal::BadNumber,
            place,
        });
    };
    if n < least || most < n {
        return Err(Refused {
            refusal: Refusal::OutOfRange,
            place,
        });
    }
    Ok((n, next))
}

// A signed number in the range of a stride, and the place behind it.
fn signed(s: &[u8], c: Cursor) -> Result<(i64, Cursor), Refused>
    ensures { result ≡ signed_within s.now c.at }
{
    let place = c.at;
    let Some((z, next)) = c.signed(s) else {
        return Err(Refused {
            refusal: Refusal::BadNumber,
            place,
        });
    };
    if !in_reach(z) {
        return Err(Refused {
            refusal: Refusal::OutOfRange,
            place,
        });
    }
    Ok((z, next))
}

// Width code, loops, coupled loop, operation.
fn read_head(s: &[u8]) -> Result<(Nest, Cursor), Refused>
    ensures part { part_of result ≡ read_from s.now head_fields 0 no_nest }
    ensures loops { IfOk result (λ r. r.0.loops ≤ 7) }
{
    let (width, c) = number(s, Cursor { at: 0 }, 0, 3)?;
    let (loops, c) = number(s, c, 1, 7)?;
    let (coupled, c) = number(s, c, 0, loops)?;
    let (code, c) = number(s, c, 1, 7)?;
    let nest = Nest::new(
        Width::coded(width),
        loops as usize,
        coupled,
        Action::coded(code),
    );
    Ok((nest, c))
}

// The terms of loop `t` of `n` for the loops outside it, nearest first.
fn read_terms(
    s: &[u8],
    mut nest: Nest,
    mut cursor: Cursor,
    t: usize,
    n: usize,
) -> Result<(Nest, Cursor), Refused>
    requires { (t < n) × (n ≤ 7) }
    ensures { part_of result ≡ read_from s.now (term_fields t (t + 1) (n - (t + 1))) cursor.at nest }
{
    for o in t + 1..n {
        let (z, next) = signed(s, cursor)?;
        nest.terms[7 * t + o] = z;
        cursor = next;
    }
    Ok((nest, cursor))
}

// The count of loop `t` of `n`, and its terms.
fn read_loop(
    s: &[u8],
    mut nest: Nest,
    cursor: Cursor,
    t: usize,
    n: usize,
) -> Result<(Nest, Cursor), Refused>
    requires { (t < n) × (n ≤ 7) }
    ensures { part_of result ≡ read_from s.now (count t ∷ term_fields t (t + 1) (n - (t + 1))) cursor.at nest }
{
    let (count, next) = number(s, cursor, 0, 4096)?;
    nest.counts[t] = count;
    read_terms(s, nest, next, t, n)
}

// The counts and terms of all `n` loops, innermost first.
fn read_loops(
    s: &[u8],
    mut nest: Nest,
    mut cursor: Cursor,
    n: usize,
) -> Result<(Nest, Cursor), Refused>
    requires { n ≤ 7 }
    ensures { part_of result ≡ read_from s.now (loop_fields 0 n) cursor.at nest }
{
    for t in 0..n {
        let (m, next) = read_loop(s, nest, cursor, t, n)?;
        nest = m;
        cursor = next;
    }
    Ok((nest, cursor))
}

// The strides of an access of `n` loops, innermost first.
fn read_strides(
    s: &[u8],
    mut access: Access,
    mut cursor: Cursor,
    n: usize,
) -> Result<(Access, Cursor), Refused>
    requires { n ≤ 7 }
    ensures { side_of result ≡ strides_at s.now 0 n cursor.at access }
{
    for d in 0..n {
        let (z, next) = signed(s, cursor)?;
        access.strides[d] = Elements(z);
        cursor = next;
    }
    Ok((access, cursor))
}

// An access of `n` loops: its base and its strides.
fn read_access(
    s: &[u8],
    access: Access,
    cursor: Cursor,
    n: usize,
) -> Result<(Access, Cursor), Refused>
    requires { n ≤ 7 }
    ensures { side_of result ≡ access_at s.now n cursor.at access }
{
    let (base, next) = number(s, cursor, 0, 1048576)?;
    let based = Access {
        base: Bytes(base as i64),
        ..access
    };
    read_strides(s, based, next, n)
}

// What follows the first four numbers: the loops, then first source, second source, destination.
fn read_rest(s: &[u8], nest: Nest, cursor: Cursor, n: usize) -> Result<(Nest, Cursor), Refused>
    requires { n ≤ 7 }
    ensures { part_of result ≡ read_from s.now (rest_fields n) cursor.at nest }
{
    let (nest, c) = read_loops(s, nest, cursor, n)?;
    let (first, c) = read_access(s, nest.first, c, n)?;
    let (second, c) = read_access(s, nest.second, c, n)?;
    let (destination, c) = read_access(s, nest.destination, c, n)?;
    let whole = Nest {
        first,
        second,
        destination,
        ..nest
    };
    Ok((whole, c))
}

// The nest that bytes are, or why not and where: 1 and 2 number by number, bytes after it, then 6, 8, 9.
pub(crate) fn read_nest(s: &[u8]) -> Result<Nest, Refused>
    ensures { nested_of result ≡ nest_at s.now }
{
    let (head, c) = read_head(s)?;
    let n = head.loops;
    let (nest, c) = read_rest(s, head, c, n)?;
    let place = c.at;
    if place < s.len() {
        return Err(Refused {
            refusal: Refusal::OutOfRange,
            place,
        });
    }
    match why_not(&nest) {
        Ok(()) => Ok(nest),
        Err(refusal) => Err(Refused { refusal, place: 0 }),
    }
}
