// Numbers in bytes, lowest byte first: elements of memory and lanes of a register.
ghost use Rattle.std.specs.Prelude.{◌≡◌, ◌+◌, ◌*◌, ◌^◌, ◌<◌, ◌≤◌, true, length, take, drop};
ghost use Rattle.std.proofs.lemmas.List.Edits.{sets};
ghost use Rattle.std.specs.Int.Signed.{non_neg};
ghost use Rattle.engine.specs.Loops.{natural};
ghost use Rattle.engine.specs.Addresses.{inside};
ghost use Rattle.engine.specs.Memory.{value_at, little_endian};

use codec::amounts::Bytes;

// The N bytes from `at` on.
fn bytes_at<const N: usize>(bytes: &[u8], at: usize) -> [u8; N]
    requires { at + N ≤ length bytes.now }
    ensures { result ≡ take N (drop at bytes.now) }
{
    let mut out = [0; N];
    out.copy_from_slice(&bytes[at..at + N]);
    out
}

// The number of any count of bytes: from the top byte down, so that every product is by 256.
fn load_bytes(bytes: &[u8], at: usize, width: u64) -> u64
    requires { (at + width ≤ length bytes.now) × (width ≤ 8) }
    ensures { (result ≡ value_at bytes.now at width) × (result < 2 ^ (8 * width)) }
{
    let mut x = 0;
    for k in (0..width as usize).rev() {
        x = u64::from(bytes[at + k]) + 256 * x;
    }
    x
}

// The number whose `width` bytes lie from `at` on.
pub(crate) fn load(bytes: &[u8], at: usize, width: u64) -> u64
    requires { (at + width ≤ length bytes.now) × (width ≤ 8) }
    ensures { (result ≡ value_at bytes.now at width) × (result < 2 ^ (8 * width)) }
{
    match width {
        1 => u64::from(bytes[at]),
        2 => u64::from(u16::from_le_bytes(bytes_at(bytes, at))),
        4 => u64::from(u32::from_le_bytes(bytes_at(bytes, at))),
        8 => u64::from_le_bytes(bytes_at(bytes, at)),
        _ => load_bytes(bytes, at, width),
    }
}

// Writes N bytes from `at` on.
fn put<const N: usize>(bytes: &mut [u8], at: usize, part: [u8; N])
    requires { at + N ≤ length bytes.old }
    ensures { bytes.new ≡ sets bytes.old at part.entry }
{
    bytes[at..at + N].copy_from_slice(&part);
}

// Writes any count of bytes of `x`, byte by byte.
fn store_bytes(bytes: &mut [u8], at: usize, width: u64, x: u64)
    requires { at + width ≤ length bytes.old }
    ensures { bytes.new ≡ sets bytes.old at (little_endian width x) }
{
    let mut rest = x;
    for k in 0..width as usize {
        bytes[at + k] = (rest % 256) as u8;
        rest /= 256;
    }
}

// Writes the `width` lowest bytes of `x` from `at` on.
pub(crate) fn store(bytes: &mut [u8], at: usize, width: u64, x: u64)
    requires { at + width ≤ length bytes.old }
    ensures { bytes.new ≡ sets bytes.old at (little_endian width x) }
{
    match width {
        1 => put(bytes, at, [(x % 0x100) as u8]),
        2 => put(bytes, at, ((x % 0x1_0000) as u16).to_le_bytes()),
        4 => put(bytes, at, ((x % 0x1_0000_0000) as u32).to_le_bytes()),
        8 => put(bytes, at, x.to_le_bytes()),
        _ => store_bytes(bytes, at, width, x),
    }
}

// An address that is not below 0, as a place in memory.
pub(crate) fn place(a: Bytes) -> usize
    requires { non_neg a.0 ≡ true }
    ensures { (result ≡ natural a.0) × (result ≤ 9223372036854775807) }
{
    a.0 as usize
}

// Whether an element of `width` bytes at address `a` lies inside a memory of `len` bytes.
pub(crate) fn inside(a: Bytes, width: u64, len: usize) -> bool
    requires { width ≤ 8 }
    ensures { result ≡ inside len width a.0 }
{
    0 <= a.0 && place(a) + (width as usize) <= len
}
