// Printing what is reported of a library, a listing (document 01, "The nightly program"; matching, document 02, R-4) or a
// census (document 02, R-7): it is read from a reader, and what is found of each block is printed to a writer. A program
// only lends these, its standard input and output, with the two buffers, and says which report.

#![tactic(auto)]

mod ask;
mod print;

ghost use Rattle.std.specs.Prelude.{◌≡◌, ◌+◌, ◌≤◌, length};
ghost use Rattle.buffer.specs.Put.{Put};
ghost use Rattle.lines.specs.Library.{most_blocks};
ghost use Rattle.lines.specs.Lines.{closing_lines};
ghost use Rattle.output.specs.Room.{HasRoom};
ghost use Rattle.printing.specs.Printed.{ReadyToPrint, StartsBlock, BlockPut};
ghost use Rattle.printing.specs.Library.{no_counts, Over, Finishes, LibraryPrinted};

use ask::{PAGE, ask};
use buffer::filled::Filled;
use library::Next;
use lines::put_closing;
use output::ending::{tell_unread, tell_unwritten, write_last};
use output::make_room;
use print::Listing;
use std::io::{Eprint, Read, Write};
use tally::{Closing, Report, Totals, closing_lines, expected_number, tally};

// Prints the library, writes out what was not yet, and says whether its last line was written out. What failed is
// told.
pub fn run<R: Read, W: Write>(
    report: Report,
    from: &mut R,
    to: &mut W,
    rt: &impl Eprint,
    input: &mut [u8],
    output: &mut [u8],
) -> bool
    requires in_bounds { 512 ≤ length input.old }
    requires in_bounds_2 { 8192 ≤ length output.old }
{
    let stopped = match print_library(report, from, to, input, output) {
        Ok(at) => return write_last(to, rt, output, at),
        Err(stopped) => stopped,
    };
    match stopped {
        Stopped::Unread { at, error } => {
            tell_unread(rt, error);
            write_last(to, rt, output, at);
        }
        Stopped::Unwritten(error) => tell_unwritten(rt, error),
    }
    false
}

// At most so many blocks are read for a report.
fn most_blocks(report: Report) -> u64
    ensures { result ≡ most_blocks report }
{
    match report {
        Report::Listing(_) => 1_048_576,
        Report::Census => 32_768,
    }
}

// No block has been counted yet.
fn no_counts() -> Totals
    ensures { result ≡ no_counts }
{
    Totals {
        blocks: 0,
        listed: 0,
        none: 0,
        refused: 0,
        unifiers: 0,
    }
}

// Why printing a library stopped: a read failed, with the error's number, after the text up to a place in the output
// buffer; or a write failed, with the error's number.
#[derive(Clone, Copy)]
enum Stopped {
    Unread { at: usize, error: i32 },
    Unwritten(i32),
}

// Block by block, until there is none, a read fails or nobody takes the output. Gives the place in the output buffer up
// to which all of the text was put.
fn print_library<R: Read, W: Write>(
    report: Report,
    from: &mut R,
    to: &mut W,
    input: &mut [u8],
    output: &mut [u8],
) -> Result<usize, Stopped>
    requires in_bounds { 512 ≤ length input.old }
    requires in_bounds_2 { 8192 ≤ length output.old }
    ensures { LibraryPrinted report result output.new }
{
    let mut reader = library::open(most_blocks(report));
    let mut counts = no_counts();
    let mut at = 0;
    loop {
        let step = library::next_block(from, input, reader);
        let Next::Block { start, length } = step.next else {
            return finish(report, step.next, counts, output, at);
        };
        let started = start_block(report, &input[start..start + length], counts);
        at = print_block(started.listing, to, output, at).map_err(Stopped::Unwritten)?;
        counts = started.counts;
        reader = step.reader;
    }
}

// What is printed of a block, and the counts after it.
#[derive(Clone, Copy)]
struct Started {
    listing: Listing,
    counts: Totals,
}

// Asks the questions of a block and tallies what they return.
fn start_block(report: Report, block: &[u8], counts: Totals) -> Started
    ensures { StartsBlock report block.now counts result.listing result.counts }
{
    let mut keys = [0; PAGE];
    let asked = ask(report, block, expected_number(counts.blocks), &mut keys);
    let tallied = tally(counts, asked.read, asked.answers);
    Started {
        listing: Listing {
            place: tallied.place,
            line: tallied.line,
            table: asked.table,
            keys,
        },
        counts: tallied.counts,
    }
}

// Puts the block's lines into the output buffer step by step, and makes room after each. Gives the place where the next
// line goes, or the error's number where writing out failed.
fn print_block<W: Write>(
    listing: Listing,
    to: &mut W,
    output: &mut [u8],
    at: usize,
) -> Result<usize, i32>
    requires ready_to_print { ReadyToPrint listing }
    requires has_room { HasRoom (length output.old) at }
    ensures { BlockPut listing output.old at result output.new }
{
    let lines = listing.line_count();
    let mut number = 0;
    let mut next = at;
    while number < lines {
        let step = listing.put_lines(number, output, next);
        next = make_room(to, output, step.at)?;
        number = step.line;
    }
    Ok(next)
}

// The lines at the end, put from a place on. Gives the place after them.
fn close(closing: Closing, output: &mut [u8], at: usize) -> usize
    requires { HasRoom (length output.old) at }
    ensures put { Put output.old at (closing_lines closing) result output.new }
    ensures upper_bound { result ≤ at + 128 }
{
    let mut filled = Filled {
        buffer: output,
        end: at,
    };
    put_closing(&mut filled, closing);
    filled.end
}

// The lines at the end; where a read failed there are none.
fn finish(
    report: Report,
    next: Next,
    counts: Totals,
    output: &mut [u8],
    at: usize,
) -> Result<usize, Stopped>
    requires over { Over next }
    requires has_room { HasRoom (length output.old) at }
    ensures { Finishes report counts output.old at next result output.new }
{
    match next {
        Next::End => Ok(close(closing_lines(report, counts, false), output, at)),
        Next::Remains => Ok(close(closing_lines(report, counts, true), output, at)),
        Next::Failed(error) => Err(Stopped::Unread { at, error }),
        Next::Block { .. } | Next::Wanted => unreachable!(),
    }
}
