// Whole files, read into a lent buffer and written; why one cannot be is said on standard error.
ghost use Rattle.std.specs.Prelude.{◌≡◌, ◌+◌, ◌<◌, ◌≤◌, length, take, drop, true, IfOk, OnErr, ◌==◌};
ghost use Rattle.std.specs.Io.KnownBytes.{Consumes, Keeps, IsAtEnd};
ghost use Rattle.words.specs.Files.{IsPrefixLen, is_ended, is_failed, is_full};

use crate::argument::complain;
use crate::failure::{blame, fail};
use std::env::{Env, FillError};
use std::fs::{File, Files};
use std::io;
use std::io::{Read, Write};

// How reading stopped: at the end of the file, in a read that failed, or with the buffer full.
#[derive(Clone, Copy, Debug, PartialEq, Eq)]
pub enum Stop {
    Ended,
    Failed,
    Full,
}

// How many bytes were put at the start of the buffer, and how reading stopped.
#[derive(Clone, Copy)]
pub struct Taken {
    pub count: usize,
    pub stop: Stop,
}

impl Stop {
    pub fn failed(self) -> bool
        ensures { result ≡ is_failed self }
    {
        matches!(self, Stop::Failed)
    }

    pub fn full(self) -> bool
        ensures { result ≡ is_full self }
    {
        matches!(self, Stop::Full)
    }
}

// A reader that keeps why its last read failed.
#[derive(Drop)]
struct Told<R> {
    from: R,
    why: Option<io::Error>,
}

impl<R: Read> Read for Told<R> {
    fn read(&mut self, buf: &mut [u8]) -> io::Result<usize> {
        self.from.read(buf).inspect_err(|e| self.why = Some(*e))
    }
}

// One read into a buffer, from a place on.
fn read_on<R: Read>(from: &mut R, out: &mut [u8], at: usize) -> io::Result<usize>
    requires { at ≤ length out.old }
    ensures front { take at out.new ≡ take at out.old }
    ensures fits { IfOk result (λ n. at + n ≤ length out.new) }
    ensures ok { IfOk result (λ n. Consumes (R.remaining from.old) (R.remaining from.new) (take n (drop at out.new))) }
    ensures err { OnErr result (Keeps (R.remaining from.old) (R.remaining from.new)) }
    ensures end { IfOk result (λ n. n ≡ 0 → at < length out.old → IsAtEnd (R.remaining from.new)) }
{
    from.read(&mut out[at..])
}

// Reads until the end, a read that fails, or until the buffer is full. What was read stands at the start of the buffer. Of a reader whose
// bytes are known it is the first of them, and at the end none is left.
pub fn take_all<R: Read>(from: &mut R, out: &mut [u8]) -> Taken
    ensures prefix_len { IsPrefixLen result.count out.new }
    ensures stop_value { is_full result.stop ≡ (result.count == length out.new) }
    ensures bytes { Consumes (R.remaining from.old) (R.remaining from.new) (take result.count out.new) }
    ensures end { is_ended result.stop ≡ true → IsAtEnd (R.remaining from.new) }
{
    let mut count = 0;
    // No iterator: each read says itself how far it came.
    while count < out.len() {
        let Ok(got) = read_on(from, out, count) else {
            return Taken {
                count,
                stop: Stop::Failed,
            };
        };
        if got == 0 {
            return Taken {
                count,
                stop: Stop::Ended,
            };
        }
        count += got;
    }
    Taken {
        count,
        stop: Stop::Full,
    }
}

// The system's numbers for three errors: `Invalid argument`, `File name too long`, `Invalid or incomplete multibyte or wide character`.
const INVALID: i32 = 22;

const TOO_LONG: i32 = 36;

const NOT_TEXT: i32 = 84;

// Why an argument is not at hand.
fn unfilled(why: FillError) -> io::Error {
    match why {
        FillError::NotPresent => io::Error::from_raw_os_error(INVALID),
        FillError::TooLong => io::Error::from_raw_os_error(TOO_LONG),
    }
}

// A path as text. One that is not UTF-8 cannot be opened.
fn text_of(path: &[u8]) -> io::Result<&str> {
    str::from_utf8(path).map_err(|_| io::Error::from_raw_os_error(NOT_TEXT))
}

// Nothing was read.
fn unread() -> Taken
    ensures { result.count ≡ 0 }
{
    Taken {
        count: 0,
        stop: Stop::Failed,
    }
}

// Reads as take_all does, and says on standard error why a read fails.
fn take_named<R: Read + Drop>(err: &impl Print, name: &[u8], from: R, out: &mut [u8]) -> Taken
    ensures { IsPrefixLen result.count out.new }
{
    let mut told = Told { from, why: None };
    let taken = take_all(&mut told, out);
    if let Some(why) = told.why {
        blame(err, name, why);
    }
    taken
}

fn opened<F: Files>(files: &F, path: &[u8]) -> io::Result<F::File> {
    File::open(files, text_of(path)?)
}

fn made<F: Files>(files: &F, path: &[u8]) -> io::Result<F::File> {
    File::create(files, text_of(path)?)
}

// Reads the file at a path as take_all does. Where it cannot be opened or read, a line on standard error says why.
pub fn read_path<F: Files>(files: &F, err: &impl Print, path: &[u8], out: &mut [u8]) -> Taken
    ensures { IsPrefixLen result.count out.new }
{
    match opened(files, path) {
        Ok(file) => take_named(err, path, file, out),
        Err(why) => {
            blame(err, path, why);
            unread()
        }
    }
}

// Reads the file that an argument names as read_path does.
pub fn read_argument<F: Files + Env>(rt: &F, err: &impl Print, i: usize, out: &mut [u8]) -> Taken
    ensures { IsPrefixLen result.count out.new }
{
    let mut path = [0u8; 4096];
    match rt.arg(i, &mut path) {
        Ok(n) => read_path(rt, err, &path[..n], out),
        Err(why) => {
            fail(err, b"a path", unfilled(why));
            unread()
        }
    }
}

// Reads standard input as take_all does, and says on standard error why it cannot be read.
pub fn read_input<I: Input>(input: &I, err: &impl Print, out: &mut [u8]) -> Taken
    ensures { IsPrefixLen result.count out.new }
{
    take_named(err, b"standard input", input.reader(), out)
}

// Writes bytes to standard output, and says on standard error why they cannot be written.
pub fn write_output(out: &impl Print, err: &impl Print, bytes: &[u8]) {
    if let Err(why) = out.write_all(bytes) {
        fail(err, b"standard output", why);
    }
}

// Whether a sheet was read to its end. If not, a line on standard error says that it is too long, or, where it could not be read, how the
// program is used.
pub fn is_whole(err: &impl Print, stop: Stop, usage: &[u8]) -> bool
    ensures { result ≡ is_ended stop }
{
    match stop {
        Stop::Ended => true,
        Stop::Failed => {
            complain(err, usage);
            false
        }
        Stop::Full => {
            complain(err, b"the sheet has more than 65,536 bytes\n");
            false
        }
    }
}

// Writes bytes to an open file; whether that went well.
fn put<W: Write + Drop>(mut file: W, err: &impl Print, bytes: &[u8], path: &[u8]) -> bool {
    match file.write_all(bytes) {
        Ok(()) => true,
        Err(why) => {
            blame(err, path, why);
            false
        }
    }
}

// Makes bytes the content of the file at a path; whether that went well. If not, a line on standard error says why.
pub fn write_path<F: Files>(files: &F, err: &impl Print, path: &[u8], bytes: &[u8]) -> bool {
    match made(files, path) {
        Ok(file) => put(file, err, bytes, path),
        Err(why) => {
            blame(err, path, why);
            false
        }
    }
}

// Makes bytes the content of the file that an argument names, as write_path does.
pub fn write_argument<F: Files + Env>(rt: &F, err: &impl Print, i: usize, bytes: &[u8]) -> bool {
    let mut path = [0u8; 4096];
    match rt.arg(i, &mut path) {
        Ok(n) => write_path(rt, err, &path[..n], bytes),
        Err(why) => {
            fail(err, b"a path", unfilled(why));
            false
        }
    }
}
