// The plain loop of a nest: nested loops over the nest's own numbers, one visit at a time. Nothing here comes from the codec, the engine or
// the translator, so that a mistake of theirs is not shared.
//
// Numbers are kept modulo 2^64: what is below 0 stands above 2^63.
ghost use Rattle.std.specs.Prelude.{◌<◌, ◌≤◌};

// How many visits there were, and the visit from which on nothing was done, if there is one: one that was given, or the first with an
// element outside memory. The first visit is visit 0.
#[derive(Clone, Copy)]
pub(crate) struct Tour {
    pub(crate) visits: u64,
    pub(crate) stop: Option<u64>,
}

// An amount of bytes.
#[derive(Clone, Copy)]
struct Bytes(u64);

// A signed amount of elements, as a nest has it: "A signed n is written as 2n if n is 0 or more, else -2n-1."
#[derive(Clone, Copy)]
struct Elements(u64);

// A loop's count: a number, and for each loop, innermost first, a signed term.
#[derive(Clone, Copy)]
struct Count {
    number: u64,
    terms: [u64; 7],
}

// Where a source or the destination lies: a base, and for each loop, innermost first, a stride.
#[derive(Clone, Copy)]
struct Access {
    base: Bytes,
    strides: [Elements; 7],
}

#[derive(Clone, Copy)]
enum Operation {
    Add,
    Subtract,
    And,
    Or,
    Xor,
    Smaller,
    Larger,
}

// The numbers of a nest. Its loops are counted from the innermost, loop 0; terms and strides of loops that it does not have are 0. The
// coupled loop is nothing to plain loops.
#[derive(Clone, Copy)]
pub(crate) struct Nest {
    width: u64,
    loops: usize,
    operation: Operation,
    counts: [Count; 7],
    first: Access,
    second: Access,
    destination: Access,
    ghost width_of_element: { (1 ≤ width) × (width ≤ 8) },
    ghost few_loops: { loops ≤ 7 },
}

// The bytes of a nest from one of its numbers on.
#[derive(Clone, Copy)]
struct Numbers<'a> {
    rest: &'a [u8],
}

// The product of two numbers below 2^32.
fn times(a: u64, b: u64) -> u64 {
    a % 4294967296 * (b % 4294967296)
}

// A number moved by a signed one so many times. "A signed n is written as 2n if n is 0 or more, else -2n-1."
fn moved(from: u64, signed: u64, by: u64) -> u64 {
    if signed % 2 == 0 {
        from.wrapping_add(times(signed / 2, by))
    } else {
        from.wrapping_sub(times(signed / 2 + 1, by))
    }
}

// A place moved on by a stride, an index times: here the width is applied.
fn moved_on(place: Bytes, stride: Elements, index: u64, width: u64) -> Bytes {
    Bytes(moved(place.0, stride.0, times(index, width)))
}

impl Numbers<'_> {
    // The next number, 0 if the bytes end before it does: "groups of seven bits, lowest group first; the high bit is set on every group but
    // the last". Groups behind the fifth are worth nothing.
    fn number(&mut self) -> u64 {
        let Some(last) = self.rest.iter().position(|group| *group < 128) else {
            return 0;
        };
        let (groups, rest) = self.rest.split_at(last + 1);
        self.rest = rest;
        groups.iter().take(5).rev().fold(
            0u64,
            |value, group| value
                .wrapping_mul(128)
                .wrapping_add(u64::from(*group % 128)),
        )
    }

    // The count of loop d: its number, and a term for each loop outside it.
    fn count(&mut self, d: usize, loops: usize) -> Count
        requires { d < 7 }
    {
        let number = self.number();
        let mut terms = [0; 7];
        for term in terms.iter_mut().take(loops).skip(d + 1) {
            *term = self.number();
        }
        Count { number, terms }
    }

    // A base, and a stride for each loop.
    fn access(&mut self, loops: usize) -> Access {
        let base = Bytes(self.number());
        let mut strides = [Elements(0); 7];
        for stride in strides.iter_mut().take(loops) {
            *stride = Elements(self.number());
        }
        Access { base, strides }
    }
}

impl Count {
    // "A loop's count is its number plus each term times that outer index." An index is given for each loop.
    fn at(&self, index: &[u64]) -> u64 {
        self.terms.iter().zip(index).fold(
            self.number,
            |count, (term, outer)| moved(count, *term, *outer),
        )
    }
}

impl Access {
    // The place of an element: the base, and each stride times its index, in elements. An index is given for each loop.
    fn at(&self, index: &[u64], width: u64) -> Bytes {
        self.strides.iter().zip(index).fold(
            self.base,
            |place, (stride, i)| moved_on(place, *stride, *i, width),
        )
    }
}

impl Operation {
    // "1 add, 2 subtract, 3 and, 4 or, 5 xor, 6 signed smaller, 7 signed larger"
    fn of(number: u64) -> Self {
        match number {
            1 => Operation::Add,
            2 => Operation::Subtract,
            3 => Operation::And,
            4 => Operation::Or,
            5 => Operation::Xor,
            6 => Operation::Smaller,
            _ => Operation::Larger,
        }
    }

    // What does not fit the width is not written.
    fn result(self, a: u64, b: u64, width: u64) -> u64
        requires { (1 ≤ width) × (width ≤ 8) }
    {
        match self {
            Operation::Add => a.wrapping_add(b),
            Operation::Subtract => a.wrapping_sub(b),
            Operation::And => a & b,
            Operation::Or => a | b,
            Operation::Xor => a ^ b,
            Operation::Smaller => if is_below(a, b, width) { a } else { b },
            Operation::Larger => if is_below(a, b, width) { b } else { a },
        }
    }
}

// Whether a is below b as two's complement: in the plain order, once the sign of both is turned.
fn is_below(a: u64, b: u64, width: u64) -> bool
    requires { (1 ≤ width) × (width ≤ 8) }
{
    let sign = 1u64 << (8 * width - 1);
    a ^ sign < b ^ sign
}

// The number of so many bytes at a place, little-endian; none if they do not lie inside memory.
fn element(memory: &[u8], place: Bytes, width: u64) -> Option<u64> {
    let from = place.0 as usize;
    let bytes = memory.get(from..from.checked_add(width as usize)?)?;
    Some(
        bytes.iter().rev().fold(
            0u64,
            |value, b| value.wrapping_mul(256).wrapping_add(u64::from(*b)),
        ),
    )
}

// Writes so many low bytes of a number; none if they would not lie inside memory.
fn set_element(memory: &mut [u8], place: Bytes, width: u64, value: u64) -> Option<()> {
    let from = place.0 as usize;
    let bytes = memory.get_mut(from..from.checked_add(width as usize)?)?;
    for (byte, low) in bytes.iter_mut().zip(value.to_le_bytes()) {
        *byte = low;
    }
    Some(())
}

impl Nest {
    pub(crate) fn read(bytes: &[u8]) -> Self {
        let mut numbers = Numbers { rest: bytes };
        // "element width | 1, 2, 4 or 8 bytes, codes 0 to 3"
        let width = match numbers.number() {
            0 => 1,
            1 => 2,
            2 => 4,
            _ => 8,
        };
        let loops = numbers.number().min(7) as usize;
        let _coupled = numbers.number();
        let operation = Operation::of(numbers.number());
        let mut counts = [Count {
            number: 0,
            terms: [0; 7],
        }; 7];
        for (d, count) in counts.iter_mut().enumerate().take(loops) {
            *count = numbers.count(d, loops);
        }
        Nest {
            width,
            loops,
            operation,
            counts,
            first: numbers.access(loops),
            second: numbers.access(loops),
            destination: numbers.access(loops),
        }
    }

    // One visit: reads both sources, operates, writes the destination. None if one of them lies outside memory, and then nothing is done.
    fn visit(&self, index: &[u64; 7], memory: &mut [u8]) -> Option<()> {
        let width = self.width;
        let index = &index[..self.loops];
        let a = element(memory, self.first.at(index, width), width)?;
        let b = element(memory, self.second.at(index, width), width)?;
        let destination = self.destination.at(index, width);
        set_element(
            memory,
            destination,
            width,
            self.operation.result(a, b, width),
        )
    }

    // The next visit, done or only counted.
    fn visited(&self, index: &[u64; 7], memory: &mut [u8], tour: Tour) -> Tour {
        let Tour { visits, mut stop } = tour;
        if stop.is_none_or(|stop| visits < stop) && self.visit(index, memory).is_none() {
            stop = Some(visits);
        }
        Tour {
            visits: visits.wrapping_add(1),
            stop,
        }
    }

    // The d innermost loops, one within the other, at the indices of those outside them.
    fn nested(&self, d: usize, mut index: [u64; 7], memory: &mut [u8], mut tour: Tour) -> Tour
        requires { d ≤ 7 }
    {
        if d == 0 {
            return self.visited(&index, memory, tour);
        }
        let this = d - 1;
        for i in 0..self.counts[this].at(&index[..self.loops]) {
            index[this] = i;
            tour = self.nested(this, index, memory, tour);
        }
        tour
    }

    // The plain loop on a memory, up to a visit from which on nothing is done.
    pub(crate) fn tour(&self, memory: &mut [u8], stop: Option<u64>) -> Tour {
        self.nested(self.loops, [0; 7], memory, Tour { visits: 0, stop })
    }

    // The first visits, so many that they are whole chunks: of as many visits as a vector length has lanes, since the nest is not coupled.
    pub(crate) fn whole_chunks(&self, vl: u64, visits: u64) -> u64 {
        let lanes = vl / self.width;
        if lanes == 0 {
            0
        } else {
            visits - visits % lanes
        }
    }
}
