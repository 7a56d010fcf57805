// The questions asked of a block: Read, and of the sides that it gives Rows and Page by a way of listing, or Count for a
// census. The pair is solved once.
ghost use Rattle.std.specs.Prelude.{List, ℕ, ◌≤◌, length, Result};
ghost use Rattle.tally.specs.declared.Report.TheVariants as asks;
ghost use Rattle.printing.specs.Asked.{PairAsked, BlockAsked};

use block::Sides;
use list::Key;
use numbers::Refusal;
use pair::ways::Way;
use solver::page::{Begin, PageRequest};
use solver::rows::BUFFER;
use table::Table;
use tally::{Answers, Report};

// The first page is of 200.
pub const PAGE: usize = 200;

// What Read and the other questions returned for a block, and the pair's table, which is there where Page wrote keys.
#[derive(Clone, Copy)]
pub struct Asked {
    pub read: Result<Sides, Refusal>,
    pub answers: Answers,
    pub table: Option<Table>,
}

// Asks Read of the block that is to have this number, and the report's questions of its sides; a refused block has none.
pub fn ask(report: Report, block: &[u8], number: u16, keys: &mut [Key]) -> Asked
    requires { 200 ≤ length keys.old }
    ensures { BlockAsked report block.now number keys.old result keys.new }
{
    let mut left = [0u8; 64];
    let mut right = [0u8; 64];
    let read = block::read(block, number, &mut left, &mut right);
    let sides = read.unwrap_or(Sides { left: 0, right: 0 });
    let left = &left[..sides.left];
    let right = &right[..sides.right];
    match report {
        Report::Listing(way) => list_sides(way, read, left, right, keys),
        Report::Census => count_sides(read, left, right),
    }
}

// Asks Count of two sides; no page is lent.
fn count_sides(read: Result<Sides, Refusal>, left: &[u8], right: &[u8]) -> Asked
    ensures { (keys keys_after : List ℕ)
        → PairAsked asks.Census read left.now right.now keys result keys_after }
{
    Asked {
        read,
        answers: Answers::Census(solver::count::count(left, right)),
        table: None,
    }
}

// Asks Rows and Page of two sides.
fn list_sides(
    way: Way,
    read: Result<Sides, Refusal>,
    left: &[u8],
    right: &[u8],
    keys: &mut [Key],
) -> Asked
    requires { 200 ≤ length keys.old }
    ensures { PairAsked (asks.Listing way) read left.now right.now keys.old result keys.new }
{
    match table::solve(way, left, right) {
        Ok(table) => {
            let mut bytes = [0u8; BUFFER];
            let rows = solver::rows::rows_of(table, &mut bytes);
            let request = PageRequest {
                begin: Begin::Start,
                wanted: PAGE,
            };
            let page = solver::page::page_of(table, request, keys);
            Asked {
                read,
                answers: Answers::Listing { rows, page },
                table: Some(table),
            }
        }
        Err(refusal) => Asked {
            read,
            answers: Answers::Listing {
                rows: Err(refusal),
                page: Err(refusal),
            },
            table: None,
        },
    }
}
