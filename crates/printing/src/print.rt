// A block's lines, put into the output buffer in steps.
//
// The lines are numbered: 0 is the block's own, then one follows for each key of its page, and the last is what
// stands after the page. The state of printing is what is printed of the block, which stays, and the number of the
// next line.
ghost use Rattle.std.specs.Prelude.{◌≡◌, List, [], ℕ, ◌+◌, ◌<◌, ◌≤◌, length, get_or};
ghost use Rattle.buffer.specs.Filled.{HasRoomFor, Puts, PutsAtMost};
ghost use Rattle.output.specs.Step.{Goes, Steps};
ghost use Rattle.pair.specs.declared.ways.Way.{Way};
ghost use Rattle.printing.specs.Printed.{key_count, line_count, lines_of, ReadyToPrint, Prints, KeyPut};

use crate::ask::PAGE;
use buffer::filled::Filled;
use lines::{put_block_line, put_end_line, put_substitution_line};
use list::Key;
use output::{Progress, ROOM};
use table::Table;
use tally::Line;

// What is printed of a block: its place in the file, its line, and the keys of its page with the pair's table, which is
// there if the page has keys.
#[derive(Clone, Copy)]
pub struct Listing {
    pub place: u64,
    pub line: Line,
    pub table: Option<Table>,
    pub keys: [Key; PAGE],
}

// The line of a key, from its values.
fn put_key(table: Table, key: Key, output: &mut Filled)
    requires { HasRoomFor output.old 8192 }
    ensures at_most { PutsAtMost 8192 output.old output.new }
    ensures key_put { KeyPut table key output.old output.new }
{
    let mut bytes = [0u8; solver::values::ROOM];
    let length = solver::values::write_values(table, key, &mut bytes);
    put_substitution_line(output, &bytes[..length]);
}

// How many keys are printed under a block's line: those that Page wrote, and none where there is no page.
fn key_count(line: Line) -> usize
    ensures { result ≡ key_count line }
{
    match line {
        Line::Listed { lines, .. } => lines as usize,
        _ => 0,
    }
}

impl Listing {
    // How many lines the block has: its own, one for each key, and what stands after the page.
    pub fn line_count(&self) -> usize
        requires { ReadyToPrint self.now }
        ensures { result ≡ line_count self.now }
    {
        key_count(self.line) + 2
    }

    // The line of this number.
    fn put_line(&self, number: usize, output: &mut Filled)
        requires ready_to_print { ReadyToPrint self.now }
        requires number_bound { number < line_count self.now }
        requires has_room { HasRoomFor output.old 8192 }
        ensures at_most { PutsAtMost 8192 output.old output.new }
        ensures put { (way : Way) (L R : List ℕ) → Prints way L R self.now
            → Puts output.old (get_or (lines_of way L R self.now) number []) output.new }
    {
        if number == 0 {
            put_block_line(output, self.place, self.line);
        } else if number <= key_count(self.line) {
            put_key(self.table.unwrap(), self.keys[number - 1], output);
        } else {
            put_end_line(output, self.line);
        }
    }

    // A step: the lines from this number on, as many as fit behind the place.
    pub fn put_lines(&self, number: usize, output: &mut [u8], at: usize) -> Progress
        requires ready_to_print { ReadyToPrint self.now }
        requires number_bound { number ≤ line_count self.now }
        requires at_in_bounds { at ≤ length output.old }
        ensures goes { Goes (line_count self.now) number at (length output.old) result }
        ensures steps { (way : Way) (L R : List ℕ) → Prints way L R self.now
            → Steps (lines_of way L R self.now) number output.old at result output.new }
    {
        let lines = self.line_count();
        let size = output.len();
        let mut filled = Filled {
            buffer: output,
            end: at,
        };
        for line in number..lines {
            if size - filled.end < ROOM {
                return Progress {
                    line,
                    at: filled.end,
                };
            }
            self.put_line(line, &mut filled);
        }
        Progress {
            line: lines,
            at: filled.end,
        }
    }
}
