// A line of the table: its fields.
ghost use Rattle.std.specs.Prelude.{◌<◌, ◌≤◌, IfSome};

// The line of a row: the letter of its kind, its name, its nest as hexadecimal digits, and two numbers.
#[derive(Clone, Copy)]
pub(crate) struct Line<'a> {
    pub(crate) kind: u8,
    name: &'a [u8],
    nest: &'a [u8],
    first: &'a [u8],
    second: &'a [u8],
}

// The value of a hexadecimal digit, in upper case.
fn digit(b: u8) -> Option<u8>
    ensures { IfSome result (λ d. d < 16) }
{
    match b {
        b'0'..=b'9' => Some(b - b'0'),
        b'A'..=b'F' => Some(b - b'A' + 10),
        _ => None,
    }
}

// A decimal number, of which the last seven digits count. Spaces and semicolons may stand between them.
fn number(text: &[u8]) -> Option<u64> {
    text.iter()
        .filter(|b| !matches!(**b, b' ' | b';'))
        .try_fold(0u64, |value, b| {
            if !b.is_ascii_digit() {
                return None;
            }
            Some(value % 1_000_000 * 10 + u64::from(*b - b'0'))
        })
}

// The field of a line that stands behind so many semicolons, the fourth with all behind it; empty if the line has fewer. The rest of the
// line, behind its kind's letter, is given, and how many semicolons stand before that.
fn field(rest: &[u8], passed: usize, marks: usize) -> &[u8]
    requires { passed ≤ 4 }
{
    match marks.checked_sub(passed) {
        Some(left) => rest
            .splitn(5 - passed, |b| *b == b';')
            .nth(left)
            .unwrap_or(&[]),
        None => &[],
    }
}

impl<'a> Line<'a> {
    // What a line says; none if it is empty or a comment. The fields are counted by semicolons, and the letter of the kind, the first byte
    // that is neither a semicolon nor 0, belongs to none of them.
    pub(crate) fn read(line: &'a [u8]) -> Option<Self> {
        let at = line.iter().position(|b| !matches!(*b, b';' | 0))?;
        let kind = line[at];
        if kind == b'#' {
            return None;
        }
        let marks = line[..at].iter().filter(|b| **b == b';').count().min(4);
        let rest = &line[at + 1..];
        Some(Line {
            kind,
            name: field(rest, marks, 1),
            nest: field(rest, marks, 2),
            first: field(rest, marks, 3),
            second: field(rest, marks, 4),
        })
    }

    // The name, at most 64 bytes, which begins behind the first spaces.
    pub(crate) fn name(&self) -> Option<&'a [u8]> {
        let mut name = self.name;
        while let [b' ', rest @ ..] = name {
            name = rest;
        }
        if name.len() <= 64 { Some(name) } else { None }
    }

    // The bytes of the nest, put into a room: each is two digits, and spaces and bars may stand between them.
    pub(crate) fn nest<'b>(&self, room: &'b mut [u8; 128]) -> Option<&'b [u8]> {
        let mut digits = 0;
        for b in self.nest.iter().filter(|b| !matches!(**b, b' ' | b'|')) {
            let byte = room.get_mut(digits / 2)?;
            *byte = *byte % 16 * 16 + digit(*b)?;
            digits += 1;
        }
        if digits % 2 == 0 {
            Some(&room[..digits / 2])
        } else {
            None
        }
    }

    pub(crate) fn numbers(&self) -> Option<[u64; 2]> {
        Some([number(self.first)?, number(self.second)?])
    }
}
