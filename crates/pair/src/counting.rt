// What is counted of a pair: how often each atom stands on the two sides, and which atoms move.
ghost use Rattle.std.specs.Prelude.{◌≡◌, List, ℕ, ◌<◌, ◌≤◌, length};
ghost use Rattle.ac.specs.Limits.{limits};
ghost use Rattle.numbers.specs.Tells.{Tells};
ghost use Rattle.pair.specs.Given.{WrongByte, OnBothSides};
ghost use Rattle.pair.specs.Ways.{mode_of};
ghost use Rattle.pair.specs.Counts.{Occurrences, Moves, TellsShared};

use crate::ways::Way;

// How many atoms there are, and how many of them are variables.
pub const ATOMS: usize = 128;

const VARIABLES: usize = 64;

// For each atom whether it moves, and how often it stands on the left and on the right.
#[derive(Clone, Copy)]
pub struct AtomCounts {
    pub moving: [bool; ATOMS],
    pub left: [u8; ATOMS],
    pub right: [u8; ATOMS],
}

// How often each atom stands on the side.
pub fn occurrences(side: &[u8]) -> [u8; ATOMS]
    requires side_len_bound { length side.now ≤ limits.most_atoms }
    requires fact { WrongByte limits side.now → ⊥ }
    ensures { Occurrences side.now result }
{
    let mut table = [0u8; ATOMS];
    for atom in side {
        table[usize::from(*atom)] += 1;
    }
    table
}

// The atoms that move, from how often each atom stands on the left. Every other atom counts as a constant.
pub fn moving_atoms(way: Way, lefts: [u8; ATOMS]) -> [bool; ATOMS]
    ensures { (L R : List ℕ) → Occurrences L lefts → Moves (mode_of way L R) result }
{
    let mut moving = [false; ATOMS];
    for atom in 0..VARIABLES {
        moving[atom] = way.moves(lefts[atom]);
    }
    moving
}

// Whether some variable stands on both sides.
pub fn shares_variable(lefts: [u8; ATOMS], rights: [u8; ATOMS]) -> bool
    ensures { (L R : List ℕ) → Occurrences L lefts → Occurrences R rights → Tells (OnBothSides L R) result }
{
    lefts[..VARIABLES]
        .iter()
        .zip(rights.iter())
        .any(|(left, right)| 0 < *left && 0 < *right)
}

// Whether a variable stands on both sides though none may.
pub fn not_separate(way: Way, lefts: [u8; ATOMS], rights: [u8; ATOMS]) -> bool
    ensures { TellsShared way lefts rights result }
{
    way.is_separate() && shares_variable(lefts, rights)
}
