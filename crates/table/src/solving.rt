// Solving a pair: its table, or the first of the numbers 7 to 12 and 19 that is given.
ghost use Rattle.std.specs.Prelude.{◌≡◌, take};
ghost use Rattle.ac.specs.Limits.{limits};
ghost use Rattle.pair.specs.Ways.{mode_of};
ghost use Rattle.table.specs.Solved.{SolvesSides};

use crate::Table;
use crate::groups::{FoundGroups, find_groups};
use numbers::Refusal;
use numbers::limits::{CONSTANTS, VARIABLES};
use pair::ways::Way;
use pair::{Gathered, take_apart};

// The first four of six atoms: a table has room for four constants.
fn first_four(atoms: [u8; VARIABLES]) -> [u8; CONSTANTS]
    ensures { result ≡ take limits.constants atoms }
{
    let [first, second, third, fourth, ..] = atoms;
    [first, second, third, fourth]
}

// Solves two sides: the first of the numbers 7 to 12 and 19 that is given, or their table.
pub fn solve(way: Way, left: &[u8], right: &[u8]) -> Result<Table, Refusal>
    ensures { SolvesSides (mode_of way left.now right.now) left.now right.now result }
{
    let pair = take_apart(way, left, right)?;
    let FoundGroups { rows, sizes } = find_groups(pair).ok_or(Refusal::Rows)?;
    let Gathered {
        atoms: variables,
        count: places,
        ..
    } = pair.variables;
    let Gathered {
        atoms,
        count: unbalanced,
        ..
    } = pair.constants;
    let constants = first_four(atoms);
    Ok(Table {
        variables,
        places,
        constants,
        unbalanced,
        rows,
        sizes,
        empties: way.may_be_empty(),
    })
}
