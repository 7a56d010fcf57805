// The limits that two sides must keep (document 01, "Numbers given in place of a result", 7 to 11), and which
// sides do not.
ghost use Rattle.std.specs.Prelude.{◌≡◌, List, ℕ};
ghost use Rattle.ac.specs.Limits.{limits};
ghost use Rattle.ac.specs.Pair.{Mode};
ghost use Rattle.pair.specs.Given.{least_atoms, WrongLength, WrongByte, PairGiven};
ghost use Rattle.numbers.specs.Tells.{Tells};
ghost use Rattle.pair.specs.Counts.{FindsFar};
ghost use Rattle.pair.specs.Ways.{mode_of};

use crate::counting::AtomCounts;
use crate::ways::Way;
use numbers::limits::{HIGHEST_ATOM, LEAST_ATOMS, MOST_ATOMS, NET_COUNT};

// The least atoms of a side: none where a variable may be empty.
pub fn least_atoms(way: Way) -> usize
    ensures { (L R : List ℕ) → result ≡ least_atoms limits (mode_of way L R) }
{
    if way.may_be_empty() { 0 } else { LEAST_ATOMS }
}

// Whether the side has fewer atoms than the least or too many.
pub fn wrong_length(least: usize, side: &[u8]) -> bool
    ensures { Tells (WrongLength limits least side.now) result }
{
    side.len() < least || MOST_ATOMS < side.len()
}

// Whether one of the two sides has a wrong length.
pub(crate) fn wrong_lengths(way: Way, left: &[u8], right: &[u8]) -> bool
    ensures { Tells (PairGiven limits (mode_of way left.now right.now) left.now right.now 7) result }
{
    let least = least_atoms(way);
    wrong_length(least, left) || wrong_length(least, right)
}

// Whether the side holds a byte that is no atom.
pub fn wrong_byte(side: &[u8]) -> bool
    ensures { Tells (WrongByte limits side.now) result }
{
    side.iter().any(|byte| HIGHEST_ATOM < *byte)
}

// Whether one of the two sides holds such a byte.
pub(crate) fn wrong_bytes(left: &[u8], right: &[u8]) -> bool
    ensures { (M : Mode) → Tells (PairGiven limits M left.now right.now 8) result }
{
    wrong_byte(left) || wrong_byte(right)
}

// The lowest atom whose net count is too far from 0, if there is one: the atoms are gone through upwards, and the first
// is it.
pub fn lowest_far(counts: AtomCounts) -> Option<u8>
    ensures { FindsFar counts result }
{
    for atom in 0..=HIGHEST_ATOM {
        let place = usize::from(atom);
        let far = NET_COUNT < counts.left[place].abs_diff(counts.right[place]);
        if far {
            return Some(atom);
        }
    }
    None
}
