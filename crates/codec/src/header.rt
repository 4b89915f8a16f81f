// Header words, taken apart into kind, width, register and coupling.
ghost use Rattle.std.specs.Prelude.{◌≡◌, cond, true, ◌<◌, ◌≤◌};
ghost use Rattle.codec.specs.Headers.{bits_of, fixed_bits, clear_bits, kind_of, width_coded, bytes_of, coupling_of, header_said, header_of, coupling_in_range, header_in_range, kind_code, width_code, coupling_code, word_of};

use crate::refusal::Refusal;

// Whether a stream reads or writes memory.
#[derive(Clone, Copy, Debug, PartialEq, Eq)]
pub enum Kind {
    Load,
    Store,
}

// The element width: 1, 2, 4 or 8 bytes, codes 0 to 3.
#[derive(Clone, Copy, Debug, PartialEq, Eq)]
pub enum Width {
    B,
    H,
    W,
    D,
}

#[derive(Clone, Copy, Debug, PartialEq, Eq)]
pub struct Header {
    pub kind: Kind,
    pub width: Width,
    pub register: usize,
    // the dimension at whose pass ends the chunks end, counted from 1, if any
    pub coupling: Option<u64>,
}

// Bits lo to lo + n - 1 of a word.
fn bits(w: u32, lo: u32, n: u32) -> u32
    requires { (lo < 32) × (n < 32) }
    ensures { result ≡ bits_of lo n w }
{
    (w >> lo) & ((1u32 << n) - 1)
}

// Whether the fixed bits are as document 01 has them.
fn fixed_bits(w: u32) -> bool
    ensures { result ≡ fixed_bits w }
{
    let coupled = bits(w, 27, 3);
    bits(w, 0, 7) == 11
        && bits(w, 20, 2) == 0
        && bits(w, 25, 2) == 0
        && coupled != 7
        && (bits(w, 30, 1) == 1 || coupled == 0)
}

// Whether neither inds nor m is set.
fn clear_bits(w: u32) -> bool
    ensures { result ≡ clear_bits w }
{
    bits(w, 24, 1) == 0 && bits(w, 31, 1) == 0
}

fn kind_of(w: u32) -> Kind
    ensures { result ≡ kind_of w }
{
    if bits(w, 14, 1) == 0 {
        Kind::Store
    } else {
        Kind::Load
    }
}

fn coupling_of(w: u32) -> Option<u64>
    ensures { result ≡ coupling_of w }
{
    if bits(w, 30, 1) == 1 {
        Some(bits(w, 27, 3) as u64 + 1)
    } else {
        None
    }
}

impl Width {
    // The width of a code; codes above 3 are read as 3.
    pub fn coded(code: u64) -> Width
        ensures { result ≡ width_coded code }
    {
        match code {
            0 => Width::B,
            1 => Width::H,
            2 => Width::W,
            _ => Width::D,
        }
    }

    // The width in bytes.
    pub fn bytes(self) -> u64
        ensures { result ≡ bytes_of self }
    {
        match self {
            Width::B => 1,
            Width::H => 2,
            Width::W => 4,
            Width::D => 8,
        }
    }

    // The width's code.
    pub fn code(self) -> u64
        ensures { (result ≡ width_code self) × (result ≤ 3) }
    {
        match self {
            Width::B => 0,
            Width::H => 1,
            Width::W => 2,
            Width::D => 3,
        }
    }
}

// The fields of a header word.
#[tactic(auto, unfolding(crate::specs::Headers::header_said))]
fn header_said(w: u32) -> Header
    ensures { result ≡ header_said w }
{
    Header {
        kind: kind_of(w),
        width: Width::coded(bits(w, 12, 2) as u64),
        register: bits(w, 7, 5) as usize,
        coupling: coupling_of(w),
    }
}

// What a header word says: refused with 3 where it breaks the fixed bits, then with 4 where m or inds is set.
#[tactic(auto, unfolding(crate::specs::Headers::header_of))]
pub fn header_of(w: u32) -> Result<Header, Refusal>
    ensures { result ≡ header_of w }
{
    if !fixed_bits(w) {
        return Err(Refusal::FixedBits);
    }
    if !clear_bits(w) {
        return Err(Refusal::NotCarried);
    }
    Ok(header_said(w))
}

fn coupling_in_range(c: Option<u64>) -> bool
    ensures { result ≡ coupling_in_range c }
{
    match c {
        None => true,
        Some(d) => 1 <= d && d <= 7,
    }
}

// Whether a word has room for every field of a header.
pub(crate) fn header_in_range(h: Header) -> bool
    ensures { result ≡ header_in_range h }
{
    h.register <= 31 && coupling_in_range(h.coupling)
}

fn kind_code(k: Kind) -> u64
    ensures { (result ≡ kind_code k) × (result ≤ 1) }
{
    match k {
        Kind::Store => 0,
        Kind::Load => 1,
    }
}

fn coupling_code(c: Option<u64>) -> u64
    requires { coupling_in_range c ≡ true }
    ensures { (result ≡ coupling_code c) × (result < 2147483648) }
{
    match c {
        None => 0,
        Some(d) => 1073741824 + (d - 1) * 134217728,
    }
}

// The word of a header that a word has room for.
pub(crate) fn word_in_range(h: Header) -> u64
    requires { header_in_range h ≡ true }
    ensures { (result ≡ word_of h) × (result < 4294967296) }
{
    11 + (h.register as u64) * 128
        + h.width.code() * 4096
        + kind_code(h.kind) * 16384
        + coupling_code(h.coupling)
}

// A header as a word, bits 19-15 and 23-22 zero; none where a field of it is out of range.
pub fn word_of(h: Header) -> Option<u64>
    ensures { result ≡ cond (header_in_range h) (Some (word_of h)) None }
{
    if header_in_range(h) {
        Some(word_in_range(h))
    } else {
        None
    }
}
