// Two flattened sides taken apart (document 01, "From sides to equations"): the pair's variables, its
// unbalanced constants and the two parts of each net count, or the first of the numbers 7 to 11 and 19 that is
// given.

#![tactic(auto)]

mod counting;
mod gathering;
pub mod limits;
pub mod ways;

ghost use Rattle.pair.specs.Ways.{mode_of};
ghost use Rattle.pair.specs.Parted.{TakesApart, Parts};

use counting::AtomCounts;
use gathering::AtomKind;
use numbers::Refusal;
use numbers::limits::{CONSTANTS, VARIABLES};
use ways::Way;

// The distinct variables of a pair or its unbalanced constants, ascending, and how many they are; for each
// the two parts of its net count: by how much its occurrences on the left exceed those on the right, and the
// other way round. Unused places are 0.
#[derive(Clone, Copy)]
pub struct Gathered {
    pub atoms: [u8; VARIABLES],
    pub count: usize,
    pub left: [u8; VARIABLES],
    pub right: [u8; VARIABLES],
}

// A pair taken apart.
#[derive(Clone, Copy)]
pub struct Pair {
    pub variables: Gathered,
    pub constants: Gathered,
}

// The pair that has these counts, or the first of the numbers 9, 10 and 11 that is given.
fn part(counts: AtomCounts) -> Result<Pair, Refusal>
    ensures { Parts counts result }
{
    let variables = gathering::gather(AtomKind::Variable, counts);
    let constants = gathering::gather(AtomKind::Constant, counts);
    let many_variables = VARIABLES < variables.count;
    let lowest_far = limits::lowest_far(counts);
    let many_constants = CONSTANTS < constants.count;
    if many_variables {
        return Err(Refusal::Variables);
    }
    if let Some(atom) = lowest_far {
        return Err(Refusal::NetCount(atom));
    }
    if many_constants {
        return Err(Refusal::Constants);
    }
    Ok(Pair {
        variables,
        constants,
    })
}

// Takes two sides apart: the first of the numbers 7 to 11 and 19 that is given, or their pair. Nothing is counted
// before both sides are known to hold atoms alone, and not too many.
pub fn take_apart(way: Way, left: &[u8], right: &[u8]) -> Result<Pair, Refusal>
    ensures { TakesApart (mode_of way left.now right.now) left.now right.now result }
{
    let wrong_lengths = limits::wrong_lengths(way, left, right);
    let wrong_bytes = limits::wrong_bytes(left, right);
    if wrong_lengths {
        return Err(Refusal::SideLength);
    }
    if wrong_bytes {
        return Err(Refusal::NoAtom);
    }
    let lefts = counting::occurrences(left);
    let rights = counting::occurrences(right);
    if counting::not_separate(way, lefts, rights) {
        return Err(Refusal::OnBothSides);
    }
    part(AtomCounts {
        moving: counting::moving_atoms(way, lefts),
        left: lefts,
        right: rights,
    })
}
