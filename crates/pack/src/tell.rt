// What is told of wrong lines, on standard error: which line it is, at which column it is wrong, and why.
ghost use Rattle.std.specs.Prelude.{◌≡◌, ◌≤◌, length};
ghost use Rattle.buffer.specs.Filled.{HasRoomFor, Puts, PutsAtMost};
ghost use Rattle.pack.specs.Told.{words_of, line_named, column_named, wrong_line, long_line};

use buffer::filled::Filled;
use pattern::{Fault, Wrong};
use text::put_number;

// The descriptor of standard error.
const STANDARD_ERROR: i32 = 2;

// Tells what is wrong with a line.
pub fn tell_wrong(line: u64, wrong: Wrong) {
    let mut text = [0u8; 256];
    let mut told = Filled {
        buffer: &mut text,
        end: 0,
    };
    put_wrong(&mut told, line, wrong);
    let end = told.end;
    io::write_all(STANDARD_ERROR, &text[..end]);
}

// Tells that a line is too long.
pub fn tell_too_long(line: u64) {
    let mut text = [0u8; 256];
    let mut told = Filled {
        buffer: &mut text,
        end: 0,
    };
    put_too_long(&mut told, line);
    let end = told.end;
    io::write_all(STANDARD_ERROR, &text[..end]);
}

// What is told of a wrong line.
fn put_wrong(out: &mut Filled, line: u64, wrong: Wrong)
    requires { HasRoomFor out.old 256 }
    ensures put { Puts out.old (wrong_line line wrong.column wrong.why) out.new }
    ensures at_most { PutsAtMost 256 out.old out.new }
{
    put_column(out, line, wrong.column as u64);
    out.put(words_of(wrong.why));
    out.put(b"\n");
}

// The line and the column, by their numbers.
fn put_column(out: &mut Filled, line: u64, column: u64)
    requires { HasRoomFor out.old 256 }
    ensures put { Puts out.old (column_named line column) out.new }
    ensures at_most { PutsAtMost 56 out.old out.new }
{
    put_line(out, line);
    out.put(b", column ");
    put_number(out, column);
    out.put(b": ");
}

// What is told of a line that is too long.
fn put_too_long(out: &mut Filled, line: u64)
    requires { HasRoomFor out.old 256 }
    ensures put { Puts out.old (long_line line) out.new }
    ensures at_most { PutsAtMost 256 out.old out.new }
{
    put_line(out, line);
    out.put(b": the line is too long; a line has at most 4,096 bytes\n");
}

// The line, by its number.
fn put_line(out: &mut Filled, line: u64)
    requires { HasRoomFor out.old 256 }
    ensures put { Puts out.old (line_named line) out.new }
    ensures at_most { PutsAtMost 25 out.old out.new }
{
    out.put(b"line ");
    put_number(out, line);
}

// What is wrong, in words.
fn words_of(why: Fault) -> &'static [u8]
    ensures words { result.now ≡ words_of why }
    ensures upper_bound { length result.now ≤ 100 }
{
    match why {
        Fault::NoAtom => b"no atom; atoms are v0 to v31 and c0 to c63, and 3v0 is three of them",
        Fault::NotWritten => {
            b"v32 to v63 cannot be written, only v0 to v31; answers call the right side's variables so"
        }
        Fault::ItemMissing => b"an atom or a bracket must stand here",
        Fault::PlusMissing => b"a + must stand here",
        Fault::NotOpened => b"a bracket is closed that was not opened",
        Fault::NotClosed => b"a bracket is not closed",
        Fault::EmptySide => b"the side is empty",
        Fault::TooManyAtoms => b"more than 64 atoms; a block holds at most 64 of a side",
        Fault::NoEquals => b"a pair has one =, and here is none",
        Fault::SecondEquals => b"a pair has one =, and here is another",
    }
}
