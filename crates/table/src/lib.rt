// A solved pair by value, and solving a pair (document 01, "From sides to equations"): its table, or the first
// of the numbers 7 to 12 and 19 that is given.

#![tactic(auto)]

pub mod choices;
mod groups;
pub mod masks;
mod solving;

ghost use Rattle.std.specs.Prelude.{◌≡◌, ◌≤◌, ℕ, length, get_or};
ghost use Rattle.ac.specs.Limits.{limits};
ghost use Rattle.ac.specs.Lists.{NoneAbove};
ghost use Rattle.table.specs.Rows.{most_rows, row_start};

use numbers::limits::{BALANCED_ROWS, CONSTANT_ROWS, CONSTANTS, VARIABLES};
pub use solving::solve;

// The groups of a pair: the balanced rows, and those of each unbalanced constant.
pub const GROUPS: usize = 1 + CONSTANTS;

// The bytes that all groups have room in, each with as many rows as it may have.
pub const ROWS: usize = VARIABLES * (BALANCED_ROWS + CONSTANTS * CONSTANT_ROWS);

// A solved pair.
#[derive(Clone, Copy)]
pub struct Table {
    // the variables, ascending, and how many there are
    pub variables: [u8; VARIABLES],
    pub places: usize,
    // the unbalanced constants, ascending, and how many there are
    pub constants: [u8; CONSTANTS],
    pub unbalanced: usize,
    // the rows of each group, at fixed places (`row_start`)
    pub rows: [u8; ROWS],
    // how many rows each group has
    pub sizes: [usize; GROUPS],
    // whether a variable may be empty
    pub empties: bool,
    pub ghost places_fit: { places ≤ limits.variables },
    pub ghost constants_fit: { unbalanced ≤ limits.constants },
    pub ghost constants_held: { unbalanced ≤ length constants },
    pub ghost sizes_fit: { (g : ℕ) → get_or sizes g 0 ≤ most_rows g },
    // no entry of a row is above the limit of net counts (document 02, R-9)
    pub ghost entries_fit: { NoneAbove limits.net_count rows },
}

// How many rows a group may have: the balanced ones are group 0.
pub fn most_rows(group: usize) -> usize
    ensures { result ≡ most_rows group }
{
    if group == 0 {
        BALANCED_ROWS
    } else {
        CONSTANT_ROWS
    }
}

// Where a row of a group begins. The places are fixed, whatever the pair's variables and rows, so that every
// entry is one sum of products away.
pub fn row_start(group: usize, row: usize) -> usize
    requires { (group ≤ limits.constants) × (row ≤ most_rows group) }
    ensures { result ≡ row_start group row }
{
    if group == 0 {
        VARIABLES * row
    } else {
        VARIABLES * (BALANCED_ROWS + CONSTANT_ROWS * (group - 1) + row)
    }
}
