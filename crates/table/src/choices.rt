// Which sets of places rows of the constants, one of each, can reach together. A set of places is a number whose
// bit p is place p, and sets are a mask whose bit s is the set s.
ghost use Rattle.std.specs.Prelude.{◌≡◌, List, ℕ, ◌+◌, ◌<◌, ◌≤◌, get_or};
ghost use Rattle.ac.specs.Limits.{limits};
ghost use Rattle.table.specs.Choices.{WithRow, Complete};

use crate::GROUPS;
use crate::masks::{MASKS, has_bit, mask_where, missed_by};

// The sets that were found, and those of which a row leaves only places that rows of the later constants can
// reach together.
fn with_row(found: u64, later: u64, missed: usize, largest: usize) -> u64
    requires { largest < 64 }
    ensures { WithRow found later missed (largest + 1) result }
{
    found | mask_where(largest + 1, |set| has_bit(later, set & missed))
}

// The sets that rows of constant number `g` and of the later ones can reach together, by each of its rows.
fn with_constant(
    reaching: &[u64; MASKS],
    places: usize,
    g: usize,
    size: usize,
    later: u64,
    largest: usize,
) -> u64
    requires { (g < limits.constants) × (places ≤ limits.variables) × (size ≤ limits.balanced_rows) × (largest < 64) }
    ensures { (sizes : List ℕ) (unbalanced : ℕ) → g < unbalanced → size ≡ get_or sizes (g + 1) 0
        → Complete reaching.now sizes unbalanced largest (g + 1) later → Complete reaching.now sizes unbalanced largest g result }
{
    let mut sets = 0;
    for i in 0..size {
        let missed = missed_by(reaching, places, g + 1, 1 << i);
        sets = with_row(sets, later, missed, largest);
    }
    sets
}

// The sets that rows of the constants from each number on can reach together; after the last there is only the
// empty one.
pub fn choices_of(
    reaching: &[u64; MASKS],
    sizes: &[usize; GROUPS],
    unbalanced: usize,
    places: usize,
    largest: usize,
) -> [u64; GROUPS]
    requires { (unbalanced ≤ limits.constants) × (places ≤ limits.variables) × (largest < 64) × ((g : ℕ) → get_or sizes.now g 0 ≤ limits.balanced_rows) }
    ensures { (g : ℕ) → g ≤ unbalanced → Complete reaching.now sizes.now unbalanced largest g (get_or result g 0) }
{
    let mut choices = [0u64; GROUPS];
    choices[unbalanced] = 1;
    for g in (0..unbalanced).rev() {
        choices[g] = with_constant(reaching, places, g, sizes[g + 1], choices[g + 1], largest);
    }
    choices
}
