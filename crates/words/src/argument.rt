// A program's arguments, and what is said where they are wrong.
use crate::number::decimal_of;
use crate::text::say;
use std::env::{Env, FillError};

// Whether there is no such argument.
fn is_missing(env: &impl Env, i: usize) -> bool {
    matches!(env.arg(i, &mut [0]), Err(FillError::NotPresent))
}

// How many arguments the program was started with, its own name among them.
pub fn arg_count(env: &impl Env) -> usize {
    (0..usize::MAX)
        .find(|i| is_missing(env, *i))
        .unwrap_or(usize::MAX)
}

// Whether the first argument asks for help.
pub fn asks_for_help(env: &impl Env) -> bool {
    let mut word = [0; 7];
    match env.arg(1, &mut word) {
        Ok(n) => &word[..n] == b"--help".as_slice(),
        Err(_) => false,
    }
}

// The number that an argument says.
pub fn number_argument(env: &impl Env, i: usize) -> Option<u64> {
    let mut text = [0; 4096];
    let n = env.arg(i, &mut text).ok()?;
    decimal_of(&text[..n])
}

// Writes a line on standard error.
pub fn complain(err: &impl Print, line: &[u8]) {
    say(err, line);
}
