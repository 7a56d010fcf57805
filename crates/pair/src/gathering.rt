// The variables of a pair, or its unbalanced constants, gathered from what was counted of it.
ghost use Rattle.std.specs.Prelude.{◌≡◌, ◌<◌};
ghost use Rattle.pair.specs.Gathered.{is_of, Adds, Gathers};

use crate::Gathered;
use crate::counting::AtomCounts;
use numbers::limits::{HIGHEST_ATOM, VARIABLES};

// Which atoms are gathered: the variables of a pair, or its unbalanced constants.
#[derive(Clone, Copy)]
pub enum AtomKind {
    Variable,
    Constant,
}

impl AtomKind {
    // Whether an atom is one of the kind, from whether it moves and how often it stands on the left and on the right.
    fn has(self, moves: bool, left: u8, right: u8) -> bool
        ensures { result ≡ is_of self moves left right }
    {
        match self {
            AtomKind::Variable => moves && (0 < left || 0 < right),
            AtomKind::Constant => !moves && left != right,
        }
    }
}

impl Gathered {
    // One atom more, with the two parts of its net count, from how often it stands on the left and on the right. Where
    // there is no room, it is only counted.
    fn add(&mut self, atom: u8, left: u8, right: u8)
        requires { self.old.count < 128 }
        ensures { Adds atom left right self.old self.new }
    {
        if self.count < VARIABLES {
            self.atoms[self.count] = atom;
            self.left[self.count] = left.saturating_sub(right);
            self.right[self.count] = right.saturating_sub(left);
        }
        self.count += 1;
    }
}

// The atoms of the kind, ascending, and beside each the two parts of its net count, as far as there is room;
// and how many they are.
pub fn gather(kind: AtomKind, counts: AtomCounts) -> Gathered
    ensures { Gathers kind counts result }
{
    let mut gathered = Gathered {
        atoms: [0; VARIABLES],
        count: 0,
        left: [0; VARIABLES],
        right: [0; VARIABLES],
    };
    for atom in 0..=HIGHEST_ATOM {
        let place = usize::from(atom);
        let left = counts.left[place];
        let right = counts.right[place];
        if kind.has(counts.moving[place], left, right) {
            gathered.add(atom, left, right);
        }
    }
    gathered
}
