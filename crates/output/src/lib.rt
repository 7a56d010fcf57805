// Printing through one output buffer, which is never grown: lines are put into it in steps, each as many as fit, and
// it is written out between the steps.
//
// A program that prints has its lines numbered from 0 and a function that puts the line of a number. Its step puts
// lines as long as there is room for one, and its contract is `Goes` and `Steps`: what was left before the step is
// what was put and then what is left after it. What a call of `write` answers becomes a value here, so that only the
// call itself stands outside the contracts.

#![tactic(auto)]

pub mod ending;

ghost use Rattle.std.specs.Prelude.{◌≡◌, ◌+◌, ◌≤◌, leb, length};
ghost use Rattle.output.specs.Writing.{after_write, after_error};
ghost use Rattle.output.specs.Room.{MakesRoom};

use buffer::answer::answer_of;
use std::io::Write;

// A line takes at most so many bytes.
pub const ROOM: usize = 8192;

// How often in a row a write that was interrupted is tried again.
pub const TRIES: usize = 1_000_000;

// The system's number for the error of a call that a signal interrupted (EINTR).
const INTERRUPTED: i32 = 4;

// Where a step ends: the number of the next line, and the place in the buffer after what was put.
#[derive(Clone, Copy)]
pub struct Progress {
    pub line: usize,
    pub at: usize,
}

// How writing goes on: from a place in the buffer, where an interrupted write may be tried so often again.
#[derive(Clone, Copy)]
pub struct Onward {
    pub written: usize,
    pub tries: usize,
}

// Whether there is room for a line behind the place.
pub fn has_room(out: &[u8], at: usize) -> bool
    requires { at ≤ length out.now }
    ensures { result ≡ leb (at + 8192) (length out.now) }
{
    ROOM <= out.len() - at
}

// What follows from the answer of a write of the bytes from one place to another. Bytes that were taken are done
// with; an interrupted write is tried again; any other error is told, and an answer of 0, which says that nothing will
// be taken, as the number 0.
pub fn after_write(
    written: usize,
    filled: usize,
    tries: usize,
    answered: Result<usize, i32>,
) -> Result<Onward, i32>
    requires { written ≤ filled }
    ensures { result ≡ after_write written filled tries answered }
{
    match answered {
        Ok(0) => Err(0),
        Ok(taken) => Ok(Onward {
            written: written + taken.min(filled - written),
            tries: TRIES,
        }),
        Err(error) => after_error(written, tries, error),
    }
}

// An interrupted write is tried again from where it was, as often as is left; any other error is told.
fn after_error(written: usize, tries: usize, error: i32) -> Result<Onward, i32>
    ensures { result ≡ after_error written tries error }
{
    if error != INTERRUPTED || tries == 0 {
        return Err(error);
    }
    Ok(Onward {
        written,
        tries: tries - 1,
    })
}

// Writes out the first bytes of the buffer, up to the place where it is filled, or says with which error writing failed.
pub fn write_out<W: Write>(to: &mut W, out: &[u8], filled: usize) -> Result<(), i32>
    requires { filled ≤ length out.now }
{
    let mut onward = Onward {
        written: 0,
        tries: TRIES,
    };
    while onward.written < filled {
        let answered = answer_of(to.write(&out[onward.written..filled]));
        onward = after_write(onward.written, filled, onward.tries, answered)?;
    }
    Ok(())
}

// A place with room for a line: where the text ends or, once it is written out, the start.
pub fn make_room<W: Write>(to: &mut W, out: &[u8], at: usize) -> Result<usize, i32>
    requires at_in_bounds { at ≤ length out.now }
    requires in_bounds { 8192 ≤ length out.now }
    ensures { MakesRoom (length out.now) at result }
{
    if has_room(out, at) {
        return Ok(at);
    }
    write_out(to, out, at)?;
    Ok(0)
}
