// A library read block by block from a reader, through one lent buffer and with few calls of it.
//
// No contract can say which bytes a call of the system puts into the buffer. So everything but the call is a
// function of values: what its answer says of the reader, where the bytes that wait are put before it, and
// what comes next. What is proved of any number of calls, whatever they answer, stands in proofs/Handed.antt.

#![tactic(auto)]

ghost use Rattle.std.specs.Prelude.{◌≡◌, ◌+◌, ◌-◌, ◌≤◌, ◌<◌, length};
ghost use Rattle.library.specs.Reading.{opened, wanted, handed, room_made, moved};
ghost use Rattle.library.specs.Reading.{ReaderFits, Comes, Misses, Takes};
ghost use Rattle.library.specs.Library.{ReadsOnce, HandsOn};

use buffer::answer::answer_of;
use std::io::Read;

// The bytes of a block.
pub const BLOCK: usize = 512;

// So many interrupted calls are tried again, a million in all: every loop must end.
const RETRIES: u64 = 1_000_000;

// The system's number for the error of a call that a signal interrupted (EINTR).
const INTERRUPTED: i32 = 4;

// What the calls of read have said of the input so far: more may come, it has ended, or a call failed, with
// the system's number for the error.
#[derive(Clone, Copy)]
pub enum Input {
    More,
    Ended,
    Failed(i32),
}

// How far a library has been read. The bytes that came and were not handed on yet stand in the buffer from
// `at` up to `filled`; `left` blocks may still be handed on; `retries` interrupted calls may still be tried
// again.
#[derive(Clone, Copy)]
pub struct Reader {
    pub at: usize,
    pub filled: usize,
    pub left: u64,
    pub retries: u64,
    pub input: Input,
}

impl Reader {
    // How many bytes must wait while more may come: a block's or, where no block may be read any more, one, which
    // says that input remains.
    fn wanted(self) -> usize
        ensures { result ≡ wanted self.left }
    {
        if self.left == 0 { 1 } else { BLOCK }
    }

    // The next so many of the bytes that wait, as a block.
    fn hand_on(self, length: usize) -> Step
        requires length_bound { self.at + length ≤ self.filled }
        requires left_nonzero { 0 < self.left }
        ensures next_value { result.next ≡ Next.Block self.at length }
        ensures reader_value { result.reader ≡ handed length self }
    {
        Step {
            next: Next::Block {
                start: self.at,
                length,
            },
            reader: Reader {
                at: self.at + length,
                left: self.left - 1,
                ..self
            },
        }
    }

    // After a call that failed: an interrupted one is tried again as long as it may be, any other error is told.
    fn missed(self, error: i32) -> Reader
        ensures { Misses self error result }
    {
        if error == INTERRUPTED && self.retries > 0 {
            return Reader {
                retries: self.retries - 1,
                ..self
            };
        }
        Reader {
            input: Input::Failed(error),
            ..self
        }
    }
}

// What comes next: a block, by its place in the buffer, where only the last may have fewer than 512 bytes;
// the end; input that remains after the last block that may be read; a failure, with its error; or a read is
// wanted before it can be said.
#[derive(Clone, Copy)]
pub enum Next {
    Block { start: usize, length: usize },
    End,
    Remains,
    Failed(i32),
    Wanted,
}

// What comes next, and how far the library has been read then.
#[derive(Clone, Copy)]
pub struct Step {
    pub next: Next,
    pub reader: Reader,
}

// A library of which nothing was read yet, and of which at most so many blocks may be read.
pub fn open(most: u64) -> Reader
    ensures { result ≡ opened most }
{
    Reader {
        at: 0,
        filled: 0,
        left: most,
        retries: RETRIES,
        input: Input::More,
    }
}

// The next block, or why there is none: reads as long as a read is wanted.
pub fn next_block<R: Read>(input: &mut R, buffer: &mut [u8], mut reader: Reader) -> Step
    requires { ReaderFits buffer.old reader }
    ensures { HandsOn buffer.old reader result.next result.reader buffer.new }
{
    loop {
        let step = next_step(reader);
        let Next::Wanted = step.next else {
            return step;
        };
        reader = read_more(input, buffer, reader);
    }
}

// What comes next of the bytes that wait: a block as soon as its bytes are there; where fewer wait than are
// wanted, it depends on the input.
pub fn next_step(reader: Reader) -> Step
    requires { reader.at ≤ reader.filled }
    ensures { Comes reader result.next result.reader }
{
    let waiting = reader.filled - reader.at;
    if reader.wanted() <= waiting {
        if reader.left == 0 {
            return Step {
                next: Next::Remains,
                reader,
            };
        }
        return reader.hand_on(BLOCK);
    }
    match reader.input {
        Input::More => Step {
            next: Next::Wanted,
            reader,
        },
        Input::Failed(error) => Step {
            next: Next::Failed(error),
            reader,
        },
        Input::Ended if waiting == 0 => Step {
            next: Next::End,
            reader,
        },
        Input::Ended => reader.hand_on(waiting),
    }
}

// One call of read into the room behind the bytes that wait, which are moved to the buffer's start before it.
fn read_more<R: Read>(input: &mut R, buffer: &mut [u8], reader: Reader) -> Reader
    requires { ReaderFits buffer.old reader }
    ensures { ReadsOnce buffer.old reader result buffer.new }
{
    let ready = make_room(buffer, reader);
    let answered = answer_of(input.read(&mut buffer[ready.filled..]));
    took(ready, buffer, answered)
}

// Moves the bytes that wait to the buffer's start.
pub fn make_room(buffer: &mut [u8], reader: Reader) -> Reader
    requires { ReaderFits buffer.old reader }
    ensures value { result ≡ room_made reader }
    ensures buffer_after { buffer.new ≡ moved reader buffer.old }
{
    buffer.copy_within(reader.at..reader.filled, 0);
    Reader {
        at: 0,
        filled: reader.filled - reader.at,
        ..reader
    }
}

// What a call's answer says: 0 bytes that the input has ended, any other number how many came behind those that wait,
// or that the call failed. More than there was room for cannot have come: the room is full then.
pub fn took(reader: Reader, buffer: &[u8], answered: Result<usize, i32>) -> Reader
    requires { reader.filled ≤ length buffer.now }
    ensures { Takes reader (length buffer.now - reader.filled) answered result }
{
    match answered {
        Ok(0) => Reader {
            input: Input::Ended,
            ..reader
        },
        Ok(count) => Reader {
            filled: reader.filled + count.min(buffer.len() - reader.filled),
            ..reader
        },
        Err(error) => reader.missed(error),
    }
}
