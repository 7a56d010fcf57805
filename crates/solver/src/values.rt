// The question Values: the values that a key gives the variables.
ghost use Rattle.std.specs.Prelude.{◌≡◌, ◌∷◌, ◌+◌, ◌≤◌, ◌<◌, length};
ghost use Rattle.ac.specs.Limits.{limits};
ghost use Rattle.ac.specs.Lists.{NoneAbove};
ghost use Rattle.pair.specs.Ways.{mode_of};
ghost use Rattle.ac.specs.Values.{laid_out};
ghost use Rattle.buffer.specs.Put.{Put};
ghost use Rattle.list.specs.Runs.{Fit, run_count, atom_of, atoms_at, length_at};
ghost use Rattle.solver.specs.Bindings.{bindings_below};
ghost use Rattle.solver.specs.Values.{longest_value, values_buffer, told_values, ValuesPromise};
ghost use Rattle.solver.specs.Steps.{ValuesWritten, ValuesOfTable};

use buffer::put_repeated;
use list::{Key, KeyedSelection, find_key, selection_of, times};
use numbers::Refusal;
use numbers::limits::{BALANCED_ROWS, CONSTANTS, NET_COUNT, VARIABLES};
use pair::ways::Way;
use table::masks::Masks;
use table::{ROWS, Table, solve};

// No value has more than 160 atoms: each row that is taken names its atom at most as often as a net count may be
// far from 0.
pub const LONGEST: usize = NET_COUNT as usize * (CONSTANTS + BALANCED_ROWS);

// The first new variable's byte.
pub const NEW: u8 = 192;

// The buffer has to have room for each variable, with its byte, its count and its atoms.
pub const ROOM: usize = VARIABLES * (2 + LONGEST);

// The atom of a run of the selection: the constant, or the new variable of the balanced row.
fn atom(selection: KeyedSelection, run: usize) -> u8
    requires { Fit selection × (run < run_count selection) }
    ensures { result ≡ atom_of selection run }
{
    if run < selection.unbalanced {
        selection.constants[run]
    } else {
        NEW + (run - selection.unbalanced) as u8
    }
}

// How many atoms the value at the place has.
fn value_length(rows: &[u8; ROWS], selection: KeyedSelection, place: usize) -> usize
    requires { Fit selection × (place < limits.variables) }
    ensures { result ≡ length_at rows.now selection place }
{
    let runs = selection.unbalanced + selection.balanced;
    (0..runs)
        .map(|run| times(rows, selection, place, run))
        .sum()
}

// The atoms of the value at the place: that of each run, as often as the run names it.
fn put_atoms(
    rows: &[u8; ROWS],
    selection: KeyedSelection,
    place: usize,
    out: &mut [u8],
    at: usize,
) -> usize
    requires fit { Fit selection × (place < limits.variables) }
    requires place_in_bounds { at + length_at rows.now selection place ≤ length out.old }
    ensures { Put out.old at (atoms_at rows.now selection place) result out.new }
{
    let mut next = at;
    for run in 0..selection.unbalanced + selection.balanced {
        let named = times(rows, selection, place, run);
        next = put_repeated(out, next, atom(selection, run), named);
    }
    next
}

// A variable with its value: its byte, the count and the atoms.
fn put_binding(
    rows: &[u8; ROWS],
    variable: u8,
    selection: KeyedSelection,
    place: usize,
    out: &mut [u8],
    at: usize,
) -> usize
    requires fit { Fit selection × (place < limits.variables) }
    requires place_bound { length_at rows.now selection place ≤ longest_value }
    requires longest_value_in_bounds { at + (2 + longest_value) ≤ length out.old }
    ensures { Put out.old at
        (variable ∷ length_at rows.now selection place ∷ atoms_at rows.now selection place) result out.new }
{
    out[at] = variable;
    out[at + 1] = value_length(rows, selection, place) as u8;
    put_atoms(rows, selection, place, out, at + 2)
}

// The variables, ascending, each with its value.
fn put_bindings(
    rows: &[u8; ROWS],
    variables: &[u8],
    selection: KeyedSelection,
    out: &mut [u8],
) -> usize
    requires fit { Fit selection × (length variables.now ≤ limits.variables) }
    requires none_above { NoneAbove limits.net_count rows.now }
    requires values_buffer_in_bounds { values_buffer ≤ length out.old }
    ensures put { Put out.old 0
        (laid_out (bindings_below variables.now (atoms_at rows.now selection) (length variables.now))) result out.new }
    ensures upper_bound { result ≤ values_buffer }
{
    let mut next = 0;
    for (place, variable) in variables.iter().enumerate() {
        next = put_binding(rows, *variable, selection, place, out, next);
    }
    next
}

// The values of a key on the list, and how long they are.
pub fn write_values(table: Table, key: Key, out: &mut [u8]) -> usize
    requires { values_buffer ≤ length out.old }
    ensures values_written { ValuesWritten table key out.old result out.new }
    ensures upper_bound { result ≤ values_buffer }
{
    let selection = selection_of(table, key);
    put_bindings(
        &table.rows,
        &table.variables[..table.places],
        selection,
        out,
    )
}

// Values of a solved pair: 16, 13, 14 or the values, and how long they are.
pub fn values_of(table: Table, key: Key, out: &mut [u8]) -> Result<usize, Refusal>
    ensures { ValuesOfTable table key out.old (told_values result) out.new }
{
    if out.len() < ROOM {
        return Err(Refusal::ShortBuffer);
    }
    let masks = Masks::of(table);
    find_key(&masks, key)?;
    Ok(write_values(table, key, out))
}

// The question Values by a way of listing: puts what a key gives the variables of two sides into the buffer, and tells
// how long it is. 16 comes first, then what solving the pair refuses.
pub fn values(
    way: Way,
    left: &[u8],
    right: &[u8],
    key: Key,
    out: &mut [u8],
) -> Result<usize, Refusal>
    ensures { ValuesPromise (mode_of way left.now right.now) left.now right.now key out.old (told_values result) out.new }
{
    if out.len() < ROOM {
        return Err(Refusal::ShortBuffer);
    }
    let table = solve(way, left, right)?;
    values_of(table, key, out)
}
