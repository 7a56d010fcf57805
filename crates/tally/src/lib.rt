// What is said of a block and at the end, and the counts, of a listing (document 01, "The nightly program") and of a
// census (document 02, R-7).
//
// Every function here is for all inputs: none has a premise, and each contract determines what is given.

#![tactic(auto)]

ghost use Rattle.std.specs.Prelude.{◌≡◌, ◌%◌, MatchResult};
ghost use Rattle.numbers.specs.Numbers.{said_of};
ghost use Rattle.numbers.specs.Outcome.{refused};
ghost use Rattle.tally.specs.Line.{told_block, line_of, line_of_said, constants_rows};
ghost use Rattle.tally.specs.Counts.{one_more, counted, Tallies, last_of, closing_of};

use block::Sides;
use numbers::Refusal;
use pair::ways::Way;
use solver::page::Written;
use solver::rows::Sizes;

// What a program reports of a library: the list of each block by a way of listing, or a census, the number of unifiers
// of each.
#[derive(Clone, Copy)]
pub enum Report {
    Listing(Way),
    Census,
}

// What the questions on a block's sides returned: Rows and Page for a listing, Count for a census.
#[derive(Clone, Copy)]
pub enum Answers {
    Listing {
        rows: Result<Sizes, Refusal>,
        page: Result<Written, Refusal>,
    },
    Census(Result<u64, Refusal>),
}

// What a block's line says beside its place, and what stands after its page: `end` and the number of lines
// printed, or `more`. In a census it says the number of unifiers. A refusal is its number, and where it names an atom,
// the atom too.
#[derive(Clone, Copy)]
pub enum Line {
    Listed {
        balanced: u64,
        of_constants: u64,
        lines: u64,
        more: bool,
    },
    Counted(u64),
    NoUnifier,
    Refused {
        number: u8,
        atom: Option<u8>,
    },
}

// How many blocks were read, how many lines of each kind they have, and the unifiers of those that were counted.
#[derive(Clone, Copy)]
pub struct Totals {
    pub blocks: u64,
    pub listed: u64,
    pub none: u64,
    pub refused: u64,
    pub unifiers: u64,
}

// The block's place in the file, its line, and the counts after it.
#[derive(Clone, Copy)]
pub struct Tallied {
    pub place: u64,
    pub line: Line,
    pub counts: Totals,
}

// The last line: `nothing read`, the counts, or in a census the total of all unifiers.
#[derive(Clone, Copy)]
pub enum LastLine {
    NothingRead,
    Counts(Totals),
    Total(u64),
}

// The lines that stand at the end: the last line, and before it `too long` where input remains.
#[derive(Clone, Copy)]
pub struct Closing {
    pub remains: bool,
    pub last: LastLine,
}

// What is said of a block, from the counts so far, what Read returned for it and what the other questions did.
pub fn tally(counts: Totals, read: Result<Sides, Refusal>, answers: Answers) -> Tallied
    ensures { Tallies counts (told_block read answers) result }
{
    let line = line_of(read, answers);
    Tallied {
        place: counts.blocks,
        line,
        counts: count_line(counts, line),
    }
}

// The block's line: a refusal of Read decides, and then what was returned for its sides.
fn line_of(read: Result<Sides, Refusal>, answers: Answers) -> Line
    ensures { result ≡ line_of (told_block read answers) }
{
    match found_line(read, answers) {
        Ok(line) => line,
        Err(refusal) => refused_line(refusal),
    }
}

// The line of a block that no question refuses. The first refusal decides, in the order Read, Rows, Page.
fn found_line(read: Result<Sides, Refusal>, answers: Answers) -> Result<Line, Refusal>
    ensures { MatchResult result (λ line. line ≡ line_of (told_block read answers))
        (λ refusal. told_block read answers ≡ refused (said_of refusal)) }
{
    read?;
    match answers {
        Answers::Listing { rows, page } => {
            let sizes = rows?;
            let page = page?;
            Ok(Line::Listed {
                balanced: sizes.balanced as u64,
                of_constants: all_constants(sizes),
                lines: page.written as u64,
                more: page.more,
            })
        }
        Answers::Census(count) => Ok(Line::Counted(count?)),
    }
}

// The line of a refused block: 13 says that there is no unifier, and 10 names an atom.
fn refused_line(refusal: Refusal) -> Line
    ensures { result ≡ line_of_said (said_of refusal) }
{
    let number = u8::from(refusal);
    match refusal {
        Refusal::NoUnifier => Line::NoUnifier,
        Refusal::NetCount(atom) => Line::Refused {
            number,
            atom: Some(atom),
        },
        _ => Line::Refused { number, atom: None },
    }
}

// The rows of all constants, as far as a number of 64 bits goes.
fn all_constants(sizes: Sizes) -> u64
    ensures { result ≡ constants_rows sizes.first sizes.second sizes.third sizes.fourth }
{
    (sizes.first as u64)
        .saturating_add(sizes.second as u64)
        .saturating_add(sizes.third as u64)
        .saturating_add(sizes.fourth as u64)
}

// The counts after a block with this line: each is counted by its own kind of line.
fn count_line(counts: Totals, line: Line) -> Totals
    ensures { result ≡ counted counts line }
{
    let after = Totals {
        blocks: one_more(counts.blocks),
        ..counts
    };
    match line {
        Line::Listed { .. } => Totals {
            listed: one_more(counts.listed),
            ..after
        },
        Line::Counted(unifiers) => Totals {
            unifiers: counts.unifiers.saturating_add(unifiers),
            ..after
        },
        Line::NoUnifier => Totals {
            none: one_more(counts.none),
            ..after
        },
        Line::Refused { .. } => Totals {
            refused: one_more(counts.refused),
            ..after
        },
    }
}

// One more, as far as a number of 64 bits goes.
fn one_more(count: u64) -> u64
    ensures { result ≡ one_more count }
{
    count.saturating_add(1)
}

// The last line: in a census the total, in a listing the counts, where some block was read.
fn last_line(report: Report, counts: Totals) -> LastLine
    ensures { result ≡ last_of report counts }
{
    match report {
        Report::Census => LastLine::Total(counts.unifiers),
        Report::Listing(_) if counts.blocks == 0 => LastLine::NothingRead,
        Report::Listing(_) => LastLine::Counts(counts),
    }
}

// The lines at the end, from the counts and whether input remains after the last block that was read.
pub fn closing_lines(report: Report, counts: Totals, remains: bool) -> Closing
    ensures { result ≡ closing_of report counts remains }
{
    Closing {
        remains,
        last: last_line(report, counts),
    }
}

// The number that the block at this place in the file is to have: counted from 0 in the file, modulo 65,536.
pub fn expected_number(place: u64) -> u16
    ensures { result ≡ place % 65536 }
{
    (place % 65536) as u16
}
