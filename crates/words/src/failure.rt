// Why something failed, on standard error.
use crate::text::say;
use arrayvec::ArrayString;
use std::fmt::Write;
use std::io;

// What stands before the last bracket that opens, and the space in front of it; all if there is none.
fn before_bracket(text: &str) -> &str {
    match text.rsplit_once(" (") {
        Some((front, _)) => front,
        None => text,
    }
}

// Says on standard error what failed, and why. The number of an error of the system, which stands last in brackets, is left out.
pub(crate) fn fail(err: &impl Print, what: &[u8], why: io::Error) {
    let mut text = ArrayString::<256>::new();
    let _ = write!(text, "{why}");
    let mut reason = text.as_str();
    if why.raw_os_error().is_some() {
        reason = before_bracket(reason);
    }
    say(err, what);
    let _ = print!(err; ": {reason}\n");
}

// Says on standard error why a path could not be opened, read or written.
pub(crate) fn blame(err: &impl Print, path: &[u8], why: io::Error) {
    match path {
        [] => fail(err, b"an empty path", why),
        _ => fail(err, path, why),
    }
}
