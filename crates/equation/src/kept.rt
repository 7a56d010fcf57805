// The rows found so far, one after the other in a run of bytes, and how one more vector is compared with them.
ghost use Rattle.std.specs.Prelude.{◌*◌, ◌<◌, ◌≤◌, length};
ghost use Rattle.numbers.specs.Tells.{Tells};
ghost use Rattle.equation.specs.Flat.{rows_of};
ghost use Rattle.equation.specs.Kept.{Lower, Keeps};

use buffer::put_bytes;

// Whether a row found is at or below the vector in every place. Any of them may be: the comparison ends as
// soon as one lower row is met, or when all of them have been tried.
fn lower(rows: &[u8], count: usize, vector: &[u8]) -> bool
    requires { count * length vector.now ≤ length rows.now }
    ensures { Tells (Lower (rows_of (length vector.now) count rows.now) vector.now) result }
{
    'rows: for row in 0..count {
        let start = row * vector.len();
        for place in 0..vector.len() {
            if vector[place] < rows[start + place] {
                continue 'rows;
            }
        }
        return true;
    }
    false
}

// Puts a vector that solves the equation behind the rows found, unless one of them is lower, and says how many rows
// there are then. Where it would be one more than the limit, nothing is put, and there is no number.
pub fn keep(rows: &mut [u8], limit: usize, count: usize, vector: &[u8]) -> Option<usize>
    requires { (count ≤ limit) × (limit < 65536) × (limit * length vector.now ≤ length rows.old) }
    ensures { Keeps limit vector.now rows.old count rows.new result }
{
    if lower(rows, count, vector) {
        return Some(count);
    }
    if count == limit {
        return None;
    }
    put_bytes(rows, count * vector.len(), vector);
    Some(count + 1)
}
