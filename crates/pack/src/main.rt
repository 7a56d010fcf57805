// Makes a library from lines of pairs: reads lines such as `v0+2v1 = c0+c1` from standard input and writes a block
// for each to standard output, numbered from 0. 2v1 is v1 twice. Brackets may group and have no meaning. The two
// sides have separate variables, v0 to v31 each. Empty lines and what follows # are passed over. A line that is no
// pair is told on standard error, by its number and the column at which it is wrong; no block is made of it, and the
// run counts as failed.

#![tactic(auto)]

mod cut;
mod packing;
mod tell;

ghost use Rattle.std.specs.Prelude.{◌≤◌, length};
ghost use Rattle.pack.specs.Packing.{Ready, Finishes, PackedTo};

use cut::Line;
use library::Next;
use output::ending::{give_verdict, tell_unread, tell_unwritten, write_last};
use packing::{Packing, pack_line, pack_piece};
use std::io::{Eprint, Read, Write};

// The input is read in so many pieces of 512 bytes at most, so that the program ends.
const MOST_PIECES: u64 = 1_000_000_000_000_000;

fn main(rt: HostRuntime) {
    let mut from = rt.stdin();
    let mut to = rt.stdout();
    let mut input = io::large_buffer();
    let mut output = io::large_buffer();
    if run(&mut from, &mut to, &rt, &mut input, &mut output) {
        give_verdict(&rt);
    }
}

// Why packing ended before all lines were read: a read failed, after the blocks up to a place in the output buffer; or a
// write failed, with the error's number.
#[derive(Clone, Copy)]
enum Stopped {
    Unread { at: usize },
    Unwritten(i32),
}

// Packs the lines, writes out what was not yet, and says whether every line was good and every block written out. What
// failed is told.
fn run<R: Read, W: Write>(
    from: &mut R,
    to: &mut W,
    rt: &impl Eprint,
    input: &mut [u8],
    output: &mut [u8],
) -> bool
    requires { (512 ≤ length input.old) × (8192 ≤ length output.old) }
{
    match pack_lines(from, to, rt, input, output) {
        Ok(packed) => write_last(to, rt, output, packed.at) && !packed.wrong,
        Err(Stopped::Unread { at }) => {
            write_last(to, rt, output, at);
            false
        }
        Err(Stopped::Unwritten(error)) => {
            tell_unwritten(rt, error);
            false
        }
    }
}

// Piece by piece, until there is none, a read fails or nobody takes the output. The blocks that were not yet written
// out stand in the output buffer up to a place. That a read failed is told.
fn pack_lines<R: Read, W: Write>(
    from: &mut R,
    to: &mut W,
    rt: &impl Eprint,
    input: &mut [u8],
    output: &mut [u8],
) -> Result<Packing, Stopped>
    requires { (512 ≤ length input.old) × (8192 ≤ length output.old) }
    ensures { PackedTo output.new result }
{
    let mut reader = library::open(MOST_PIECES);
    let mut line = Line::new();
    let mut packing = Packing::begin();
    loop {
        let step = library::next_block(from, input, reader);
        let Next::Block { start, length } = step.next else {
            return finish(to, rt, step.next, &line, packing, output);
        };
        let piece = &input[start..start + length];
        packing = pack_piece(to, piece, &mut line, packing, output).map_err(Stopped::Unwritten)?;
        reader = step.reader;
    }
}

// The end of the input: the last line may lack its line feed. Where the input has not ended, that is told.
fn finish<W: Write>(
    to: &mut W,
    rt: &impl Eprint,
    next: Next,
    line: &Line,
    packing: Packing,
    output: &mut [u8],
) -> Result<Packing, Stopped>
    requires { Ready packing (length output.old) }
    ensures { Finishes next line.now packing output.old result output.new }
{
    let Next::End = next else {
        tell_unread(rt, error_of(next));
        return Err(Stopped::Unread { at: packing.at });
    };
    pack_line(to, line, packing, output).map_err(Stopped::Unwritten)
}

// The number of the error with which a read failed, and 0 where none did.
fn error_of(next: Next) -> i32 {
    match next {
        Next::Failed(error) => error,
        _ => 0,
    }
}
