// The question Rows: the rows of all groups one after the other, and the size of each group.
ghost use Rattle.std.specs.Prelude.{◌≡◌, ◌+◌, ◌*◌, ◌<◌, ◌≤◌, length, get_or};
ghost use Rattle.ac.specs.Limits.{limits};
ghost use Rattle.pair.specs.Ways.{mode_of};
ghost use Rattle.buffer.specs.Put.{Put};
ghost use Rattle.table.specs.Table.{group_at, groups_in};
ghost use Rattle.solver.specs.Rows.{rows_buffer, told_rows, size, all_rows, bytes_of, RowsPromise};
ghost use Rattle.solver.specs.Steps.{RowsOfTable};

use buffer::put_bytes;
use numbers::Refusal;
use pair::ways::Way;
use table::{ROWS, Table, row_start, solve};

// The size of each group: how many balanced rows there are, how many unbalanced constants, and how many rows the first
// to the fourth of them have, 0 where there is none.
#[derive(Clone, Copy)]
pub struct Sizes {
    pub balanced: usize,
    pub constants: usize,
    pub first: usize,
    pub second: usize,
    pub third: usize,
    pub fourth: usize,
}

// The shortest buffer that the rows fit into, whatever the pair: the table's own room for them.
pub const BUFFER: usize = ROWS;

// Puts the rows of a group one after the other.
fn put_group(table: &Table, group: usize, out: &mut [u8], at: usize) -> usize
    requires group_bound { group ≤ limits.constants }
    requires room { at + get_or table.now.sizes group 0 * table.now.places ≤ length out.old }
    ensures { Put out.old at (bytes_of (group_at table.now group)) result out.new }
{
    let mut next = at;
    for i in 0..table.sizes[group] {
        let start = row_start(group, i);
        next = put_bytes(out, next, &table.rows[start..start + table.places]);
    }
    next
}

// Puts the rows of all groups, the balanced ones first.
fn put_groups(table: &Table, out: &mut [u8]) -> usize
    requires { rows_buffer ≤ length out.old }
    ensures { Put out.old 0 (bytes_of (all_rows (groups_in table.now))) result out.new × (result ≤ rows_buffer) }
{
    let mut next = 0;
    for group in 0..=table.unbalanced {
        next = put_group(table, group, out, next);
    }
    next
}

// How many rows the constant at a place has, 0 where there is no such constant.
fn size_at(table: &Table, place: usize) -> usize
    requires { place < limits.constants }
    ensures { result ≡ size (groups_in table.now) place }
{
    if place < table.unbalanced {
        table.sizes[place + 1]
    } else {
        0
    }
}

// The question Rows on a solved pair.
pub fn rows_of(table: Table, out: &mut [u8]) -> Result<Sizes, Refusal>
    requires { rows_buffer ≤ length out.old }
    ensures { RowsOfTable table out.old (told_rows result) out.new }
{
    put_groups(&table, out);
    Ok(Sizes {
        balanced: table.sizes[0],
        constants: table.unbalanced,
        first: size_at(&table, 0),
        second: size_at(&table, 1),
        third: size_at(&table, 2),
        fourth: size_at(&table, 3),
    })
}

// The question Rows by a way of listing: puts the rows of two sides into the buffer. Every refusal is settled before the
// first byte is written.
pub fn rows(way: Way, left: &[u8], right: &[u8], out: &mut [u8]) -> Result<Sizes, Refusal>
    ensures { RowsPromise (mode_of way left.now right.now) left.now right.now out.old (told_rows result) out.new }
{
    if out.len() < BUFFER {
        return Err(Refusal::ShortBuffer);
    }
    let table = solve(way, left, right)?;
    rows_of(table, out)
}
