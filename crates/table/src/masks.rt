// Which rows of a solved pair reach which variable, as masks (document 02, R-5).
ghost use Rattle.std.specs.Prelude.{◌≡◌, Bool, ℕ, ◌<◌, ◌≤◌, ◌^◌, get_or};
ghost use Rattle.ac.specs.Limits.{limits};
ghost use Rattle.ac.specs.Keys.{bit};
ghost use Rattle.table.specs.Rows.{most_rows};
ghost use Rattle.table.specs.Marks.{Tests, MarkedTo, MarksIn, MarksAt, MissedBy, places_to_reach, rows_to_take, SetsOf};

use crate::choices::choices_of;
use crate::{GROUPS, ROWS, Table, row_start};
use numbers::limits::VARIABLES;

// A mask for each group and each place.
pub const MASKS: usize = VARIABLES * GROUPS;

// All rows that a group may have.
pub const ALL_ROWS: u64 = 65_535;

#[derive(Clone, Copy)]
pub struct Masks {
    // how many places a listed selection has to reach, and the balanced rows that it has to take
    pub places: usize,
    pub must: u64,
    // how many unbalanced constants there are
    pub unbalanced: usize,
    // how many rows each group has
    pub sizes: [usize; GROUPS],
    // the mask of group g at place p stands at 6 * g + p: its bit i is set exactly where row i is above 0 there
    pub reaching: [u64; MASKS],
    // the places that no balanced row reaches, as a set: bit p is place p
    pub unreached: usize,
    // for each number g sets of such places, bit s for the set s: all that rows of the constants from number g
    // on, one of each, can reach together
    pub choices: [u64; GROUPS],
    pub ghost places_fit: { places ≤ limits.variables },
    pub ghost constants_fit: { unbalanced ≤ limits.constants },
    pub ghost sizes_fit: { (g : ℕ) → get_or sizes g 0 ≤ most_rows g },
    pub ghost unreached_fits: { unreached < 64 },
    pub ghost must_fits: { must < 2 ^ limits.balanced_rows },
    pub ghost sets: { SetsOf reaching sizes unbalanced places unreached choices },
}

// Whether bit `i` of a mask is set.
pub fn has_bit(mask: u64, i: usize) -> bool
    requires { i < 64 }
    ensures { result ≡ bit mask i }
{
    mask >> i & 1 == 1
}

// The numbers below an end that pass a test, as a mask whose bit i is number i.
pub(crate) fn mask_where<F: Fn(usize) -> bool>(end: usize, passes: F) -> u64
    requires end { end ≤ 64 }
    requires callable { (i : ℕ) → i < end → F.pre passes i }
    ensures { (test : ℕ → Bool) → Tests (F.post passes) end test → MarkedTo test end result }
{
    let mut mask = 0;
    for i in 0..end {
        if passes(i) {
            mask |= 1 << i;
        }
    }
    mask
}

// The mask of a group at a place, row by row.
fn mask_at(rows: &[u8; ROWS], g: usize, size: usize, place: usize) -> u64
    requires { (g ≤ limits.constants) × (size ≤ most_rows g) × (place < limits.variables) }
    ensures { MarksIn rows.now g size place result }
{
    mask_where(size, |row| rows[row_start(g, row) + place] > 0)
}

// The masks of all groups, and in each place after place.
fn reaching_of(table: Table) -> [u64; MASKS]
    ensures { (at : ℕ) → at < 30 → MarksAt table.rows table.sizes at (get_or result at 0) }
{
    let mut reaching = [0; MASKS];
    for (at, mask) in reaching.iter_mut().enumerate() {
        let group = at / VARIABLES;
        *mask = mask_at(&table.rows, group, table.sizes[group], at % VARIABLES);
    }
    reaching
}

// The places at which none of these rows of a group is above 0, as a set.
pub fn missed_by(reaching: &[u64; MASKS], places: usize, g: usize, rows: u64) -> usize
    requires { (g ≤ limits.constants) × (places ≤ limits.variables) }
    ensures missed_by { MissedBy reaching.now places g rows result }
    ensures upper_bound { result < 64 }
{
    mask_where(places, |place| reaching[VARIABLES * g + place] & rows == 0) as usize
}

// How many places a listed selection has to reach: that of each variable, but none where a variable may be empty.
fn places_to_reach(table: Table) -> usize
    ensures { result ≡ places_to_reach table.empties table.places }
{
    if table.empties { 0 } else { table.places }
}

// The balanced rows that it has to take, as a mask: none, but all of them where a variable may be empty.
fn rows_to_take(table: Table) -> u64
    ensures { result ≡ rows_to_take table.empties (get_or table.sizes 0 0) }
{
    if table.empties {
        (1 << table.sizes[0]) - 1
    } else {
        0
    }
}

impl Masks {
    ghost use Rattle.table.specs.Masks.{MasksOf};

    // The masks of a solved pair, with what they say of sets of places.
    pub fn of(table: Table) -> Masks
        ensures { MasksOf table result }
    {
        let reaching = reaching_of(table);
        let places = places_to_reach(table);
        let must = rows_to_take(table);
        let unreached = missed_by(&reaching, places, 0, ALL_ROWS);
        let sizes = table.sizes;
        let choices = choices_of(&reaching, &sizes, table.unbalanced, places, unreached);
        Masks {
            places,
            must,
            unbalanced: table.unbalanced,
            sizes,
            reaching,
            unreached,
            choices,
        }
    }
}
