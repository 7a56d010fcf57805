// Lines packed one after the other: a line is taken together from pieces of the input, and a block is made of its pair.
ghost use Rattle.std.specs.Prelude.{◌≡◌, ◌≤◌, length};
ghost use Rattle.pack.specs.Packing.{nothing_packed, after_line, after_wrong, after_block};
ghost use Rattle.pack.specs.Packing.{Ready, PairGoes, LineGoes, PieceGoes};

use crate::cut::Line;
use crate::tell;
use output::make_room;
use pattern::read_line;
use pattern::scan::find;
use std::io::Write;

// The bytes of a block.
const BLOCK: usize = 512;

// How far the lines have been packed: the number of the line that is read, counted from 1; the place behind the blocks
// in the output buffer; the number of the next block; and whether a line was wrong.
#[derive(Clone, Copy)]
pub struct Packing {
    pub line: u64,
    pub at: usize,
    pub number: u16,
    pub wrong: bool,
}

impl Packing {
    // Nothing was packed yet.
    pub fn begin() -> Packing
        ensures { result ≡ nothing_packed }
    {
        Packing {
            line: 1,
            number: 0,
            at: 0,
            wrong: false,
        }
    }

    // The next line.
    fn after_line(self) -> Packing
        ensures { result ≡ after_line self }
    {
        Packing {
            line: self.line.wrapping_add(1),
            ..self
        }
    }

    // The next line, after one that is wrong.
    fn after_wrong(self) -> Packing
        ensures { result ≡ after_wrong self }
    {
        Packing {
            wrong: true,
            ..self.after_line()
        }
    }

    // The next line, after one whose block ends at a place.
    fn after_block(self, end: usize) -> Packing
        ensures { result ≡ after_block end self }
    {
        Packing {
            number: self.number.wrapping_add(1),
            at: end,
            ..self.after_line()
        }
    }
}

// The lines of a piece of the input: those that end in it are packed, and what is left of it is kept. The number of
// the error where a write failed.
pub fn pack_piece<W: Write>(
    to: &mut W,
    bytes: &[u8],
    line: &mut Line,
    packing: Packing,
    output: &mut [u8],
) -> Result<Packing, i32>
    requires { Ready packing (length output.old) }
    ensures { PieceGoes bytes.now line.old packing output.old result
        line.new output.new }
{
    let mut rest = bytes;
    let mut on = packing;
    while let Some(end) = find(rest, b'\n') {
        line.append(&rest[..end]);
        on = pack_line(to, line, on, output)?;
        line.clear();
        rest = &rest[end + 1..];
    }
    line.append(rest);
    Ok(on)
}

// A line that has ended: a block is made of a pair, and what is wrong is told.
pub fn pack_line<W: Write>(
    to: &mut W,
    line: &Line,
    packing: Packing,
    output: &mut [u8],
) -> Result<Packing, i32>
    requires { Ready packing (length output.old) }
    ensures { LineGoes line.now packing output.old result output.new }
{
    let Some(bytes) = line.whole() else {
        tell::tell_too_long(packing.line);
        return Ok(packing.after_wrong());
    };
    let mut left = [0u8; 64];
    let mut right = [0u8; 64];
    match read_line(bytes, &mut left, &mut right) {
        Ok(None) => Ok(packing.after_line()),
        Ok(Some(sides)) => pack_pair(
            to,
            &left[..sides.left],
            &right[..sides.right],
            packing,
            output,
        ),
        Err(wrong) => {
            tell::tell_wrong(packing.line, wrong);
            Ok(packing.after_wrong())
        }
    }
}

// The block of a pair, put behind the others. The sides that were read from a line can be written; a refusal would
// count as a wrong line.
fn pack_pair<W: Write>(
    to: &mut W,
    left: &[u8],
    right: &[u8],
    packing: Packing,
    output: &mut [u8],
) -> Result<Packing, i32>
    requires { Ready packing (length output.old) }
    ensures { PairGoes left.now right.now packing output.old result
        output.new }
{
    let at = make_room(to, output, packing.at)?;
    let end = at + BLOCK;
    let on = Packing { at, ..packing };
    match writing::write(left, right, packing.number, &mut output[at..end]) {
        Ok(()) => Ok(on.after_block(end)),
        Err(_) => Ok(on.after_wrong()),
    }
}
