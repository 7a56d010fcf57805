// How a program that prints ends: what was not yet written out is, what failed is told, and where all went well the
// program says so if it is asked to.
ghost use Rattle.std.specs.Prelude.{◌≤◌, length};

use crate::write_out;
use std::env::FillError;
use std::io::{Eprint, Error, Write};
use std::rt::Env;

// Where the program says that all went well, if it is asked to.
const VERDICT: i32 = 3;

// The system's number for the error of a write whose reader is gone (EPIPE).
const BROKEN_PIPE: i32 = 32;

// Writes out what was not yet, and says whether all of it was taken.
pub fn write_last<W: Write>(to: &mut W, rt: &impl Eprint, output: &[u8], at: usize) -> bool
    requires { at ≤ length output.now }
{
    match write_out(to, output, at) {
        Ok(()) => true,
        Err(error) => {
            tell_unwritten(rt, error);
            false
        }
    }
}

// That writing failed is told, unless nobody reads any more.
pub fn tell_unwritten(rt: &impl Eprint, error: i32) {
    if error != BROKEN_PIPE {
        tell(rt, "standard output", error);
    }
}

// That reading failed is told.
pub fn tell_unread(rt: &impl Eprint, error: i32) {
    tell(rt, "standard input", error);
}

// A line on standard error: what failed, and the error's text. Where that cannot be written either, nobody is told.
fn tell(rt: &impl Eprint, what: &str, error: i32) {
    let why = Error::from_raw_os_error(error);
    let _ = eprintln!(rt; "{what}: {why}");
}

// The line `done`, where the program's only argument is `verdict`.
pub fn give_verdict(rt: &impl Env) {
    if is_verdict_wanted(rt) {
        io::write_all(VERDICT, b"done\n");
    }
}

// Whether the program's only argument is `verdict`.
fn is_verdict_wanted(rt: &impl Env) -> bool {
    let mut word = [0u8; 8];
    let Ok(length) = rt.arg(1, &mut word) else {
        return false;
    };
    &word[..length] == b"verdict".as_slice()
        && matches!(rt.arg(2, &mut word), Err(FillError::NotPresent))
}
