// The rank of a candidate: how many candidates there are up to it, worked out from its key (document 02, R-8).
ghost use Rattle.std.specs.Prelude.{◌≡◌, ℕ, ◌≤◌, get_or};
ghost use Rattle.ac.specs.Limits.{limits};
ghost use Rattle.table.specs.Table.{most_rows};
ghost use Rattle.list.specs.Ranks.{RankIn};

use crate::{Key, LOW_MASK, index_at};
use table::GROUPS;

// How many candidates there are up to one and with it. Its row indexes are digits that have as many values as their
// constants have rows; each tuple of them goes with every set of balanced rows, or with all of them where they must be
// taken.
pub fn rank(sizes: &[usize; GROUPS], unbalanced: usize, must: u64, key: Key) -> u64
    requires { (unbalanced ≤ limits.constants) × ((g : ℕ) → get_or sizes.now g 0 ≤ most_rows g) }
    ensures { RankIn sizes.now unbalanced must key result }
{
    let mut tuple: u64 = 0;
    for g in 0..unbalanced {
        tuple = tuple * sizes[g + 1] as u64 + index_at(key, g) as u64;
    }
    if must > 0 {
        return tuple + 1;
    }
    (tuple << sizes[0]) + u64::from(key & LOW_MASK) + 1
}
