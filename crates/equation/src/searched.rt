// An equation as it is searched.
ghost use Rattle.std.specs.Prelude.{◌≡◌, ◌≤◌, length};
ghost use Rattle.ac.specs.Limits.{limits};
ghost use Rattle.equation.specs.Tops.{Tops};

use numbers::limits::VARIABLES;

// The coefficients of an equation by place, in net parts; for each place the largest of them from there on; and how
// many rows are kept.
#[derive(Clone, Copy)]
pub struct Searched<'a> {
    pub left: &'a [u8],
    pub right: &'a [u8],
    pub lifts: [u8; VARIABLES],
    pub drops: [u8; VARIABLES],
    pub limit: usize,
    ghost level: { length right.now ≡ length left.now },
    ghost few_places: { length left.now ≤ limits.variables },
    ghost limited: { limit ≤ limits.balanced_rows },
    ghost left_tops: { Tops left.now lifts },
    ghost right_tops: { Tops right.now drops },
}

// For each place the largest of the bytes from there on.
fn tops(bytes: &[u8]) -> [u8; VARIABLES]
    requires { length bytes.now ≤ limits.variables }
    ensures { Tops bytes.now result }
{
    let mut each = [0u8; VARIABLES];
    let mut most = 0;
    for place in (0..bytes.len()).rev() {
        most = bytes[place].max(most);
        each[place] = most;
    }
    each
}

impl Searched<'_> {
    // The equation of these coefficients, of which at most so many rows are kept.
    pub fn of<'a>(left: &'a [u8], right: &'a [u8], limit: usize) -> Searched<'a>
        requires level { length right.now ≡ length left.now }
        requires few_places { length left.now ≤ limits.variables }
        requires limited { limit ≤ limits.balanced_rows }
        ensures of_left { result.left.now ≡ left.now }
        ensures of_right { result.right.now ≡ right.now }
        ensures same_limit { result.limit ≡ limit }
    {
        Searched {
            left,
            right,
            lifts: tops(left),
            drops: tops(right),
            limit,
        }
    }
}
