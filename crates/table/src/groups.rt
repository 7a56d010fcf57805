// The rows of a pair's groups, each at its place: the balanced rows as group 0, then those of each unbalanced
// constant, ascending.
ghost use Rattle.std.specs.Prelude.{◌≡◌, ◌≤◌, IfSome};
ghost use Rattle.ac.specs.Limits.{limits};
ghost use Rattle.table.specs.Rows.{most_rows};
ghost use Rattle.table.specs.Groups.{offsets_in, Roomy, Spreads, FindsGroup, FindsGroups};

use crate::{GROUPS, ROWS, most_rows, row_start};
use buffer::put_bytes;
use equation::{FoundRows, NetEquation, Offsets, find_rows};
use pair::{Gathered, Pair};

// The rows of all groups at their places, and how many each group has.
#[derive(Clone, Copy)]
pub struct FoundGroups {
    pub rows: [u8; ROWS],
    pub sizes: [usize; GROUPS],
}

// Puts the rows that were found of a group, which stand one after the other, at their places.
fn spread(found: &FoundRows, places: usize, group: usize, rows: &mut [u8; ROWS])
    requires { (places ≤ limits.variables) × (group ≤ limits.constants) × (found.now.number ≤ most_rows group) }
    ensures { Spreads places group found.now.number found.now.rows rows.old rows.new }
{
    for i in 0..found.number {
        let start = i * places;
        put_bytes(
            rows,
            row_start(group, i),
            &found.rows[start..start + places],
        );
    }
}

// What is added to the sums in the equation of a group: nothing for the balanced rows, and the two parts of a
// constant's net count for its own.
fn offsets_in(constants: Gathered, group: usize) -> Offsets
    requires { group ≤ limits.constants }
    ensures { result ≡ offsets_in constants group }
{
    if group == 0 {
        return Offsets {
            left: 0,
            right: 0,
            homogeneous: true,
        };
    }
    Offsets {
        left: constants.left[group - 1],
        right: constants.right[group - 1],
        homogeneous: false,
    }
}

// The rows of a group: the balanced ones, or those of a constant, by its net count; none where it has too many.
fn find_group(pair: Pair, group: usize) -> Option<FoundRows>
    requires { Roomy pair × (group ≤ pair.constants.count) }
    ensures few { IfSome result (λ found. found.number ≤ most_rows group) }
    ensures finds { FindsGroup pair group result }
{
    let Gathered {
        count: places,
        left,
        right,
        ..
    } = pair.variables;
    let offsets = offsets_in(pair.constants, group);
    let equation = NetEquation {
        left,
        right,
        places,
        offsets,
    };
    find_rows(equation, most_rows(group))
}

// The rows of every group at their places, and how many each group has; none where a group has too many.
pub fn find_groups(pair: Pair) -> Option<FoundGroups>
    requires { Roomy pair }
    ensures { FindsGroups pair result }
{
    let places = pair.variables.count;
    let groups = 1 + pair.constants.count;
    let mut rows = [0; ROWS];
    let mut sizes = [0; GROUPS];
    for group in 0..groups {
        let found = find_group(pair, group)?;
        spread(&found, places, group, &mut rows);
        sizes[group] = found.number;
    }
    Some(FoundGroups { rows, sizes })
}
