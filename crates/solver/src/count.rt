// The question Count: how many unifiers there are, worked out from which rows reach which variables and by no walk
// through the keys (document 02, R-7).
ghost use Rattle.std.specs.Prelude.{◌≡◌, ℕ, ◌<◌, ◌≤◌, get_or};
ghost use Rattle.std.specs.Int.Count.{ones};
ghost use Rattle.ac.specs.Limits.{limits};
ghost use Rattle.ac.specs.Pair.{unifying};
ghost use Rattle.ac.specs.Counting.{selections_missing, selections_reaching};
ghost use Rattle.table.specs.Rows.{most_rows};
ghost use Rattle.solver.specs.Count.{told_count, CountPromise};
ghost use Rattle.solver.specs.Missing.{RowsLeft, ReachingLeft, AllRows, Without, NotReaching};
ghost use Rattle.solver.specs.Steps.{CountOfTable};

use numbers::Refusal;
use numbers::limits::VARIABLES;
use pair::ways::Way;
use table::masks::{MASKS, Masks};
use table::{GROUPS, Table, solve};

// The first rows of a group, so many, as a mask.
fn first_rows(size: usize) -> u64
    requires { size < 64 }
    ensures { AllRows size result }
{
    (1 << size) - 1
}

// All rows of each group, as masks.
fn all_rows(sizes: &[usize; GROUPS]) -> [u64; GROUPS]
    requires { (g : ℕ) → get_or sizes.now g 0 ≤ most_rows g }
    ensures { (g : ℕ) → g ≤ limits.constants → AllRows (get_or sizes.now g 0) (get_or result g 0) }
{
    let mut rows = [0u64; GROUPS];
    for g in 0..GROUPS {
        rows[g] = first_rows(sizes[g]);
    }
    rows
}

// The rows of a mask that are not in another one.
fn without(rows: u64, others: u64) -> u64
    ensures { Without rows others result }
{
    rows & !others
}

// Of each group the rows of its mask that do not reach the place.
fn not_reaching(reaching: &[u64; MASKS], rows: [u64; GROUPS], place: usize) -> [u64; GROUPS]
    requires { place < limits.variables }
    ensures { NotReaching reaching.now rows place result }
{
    let mut fewer = [0u64; GROUPS];
    for g in 0..GROUPS {
        fewer[g] = without(rows[g], reaching[VARIABLES * g + place]);
    }
    fewer
}

// How many rows a mask has.
fn row_count(rows: u64) -> u64
    ensures { result ≡ ones rows }
{
    u64::from(rows.count_ones())
}

// How many selections take rows of the masks alone: one of each constant, and any set of the balanced ones.
fn selections_of(rows: [u64; GROUPS], unbalanced: usize) -> u64
    requires { (unbalanced ≤ limits.constants) × RowsLeft unbalanced rows }
    ensures { (left : RowsLeft unbalanced rows) → result ≡ selections_missing left.missed left.groups }
{
    let mut tuples: u64 = 1;
    for mask in &rows[1..=unbalanced] {
        tuples *= row_count(*mask);
    }
    tuples << row_count(rows[0])
}

// How many selections that take rows of the masks alone reach each of the first places: of those that reach all of them
// but the last, the ones that do not miss it.
fn selections_reaching(
    reaching: &[u64; MASKS],
    rows: [u64; GROUPS],
    unbalanced: usize,
    places: usize,
) -> u64
    requires unbalanced_le_constants { (unbalanced ≤ limits.constants) × (places ≤ limits.variables) }
    requires reaching_left { ReachingLeft reaching.now rows unbalanced places }
    ensures { (of : ReachingLeft reaching.now rows unbalanced places)
        → result ≡ selections_reaching of.left.groups places of.left.missed }
{
    if places == 0 {
        return selections_of(rows, unbalanced);
    }
    let last = places - 1;
    let fewer = not_reaching(reaching, rows, last);
    let all = selections_reaching(reaching, rows, unbalanced, last);
    all - selections_reaching(reaching, fewer, unbalanced, last)
}

// The question Count on a solved pair: the selections of all rows that reach every variable.
pub fn count_of(table: Table) -> Result<u64, Refusal>
    ensures { CountOfTable table (told_count result) }
{
    let masks = Masks::of(table);
    let rows = all_rows(&masks.sizes);
    Ok(selections_reaching(&masks.reaching, rows, masks.unbalanced, masks.places))
}

// The question Count: how many unifiers two sides have, after what solving the pair refuses.
pub fn count(left: &[u8], right: &[u8]) -> Result<u64, Refusal>
    ensures { CountPromise unifying left.now right.now (told_count result) }
{
    let table = solve(Way::Unifying, left, right)?;
    count_of(table)
}
