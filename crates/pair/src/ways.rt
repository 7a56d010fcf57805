// The ways of listing (document 02, R-4 and R-10): all variables move, or those of the left side; or all move, and one may
// be empty.
ghost use Rattle.std.specs.Prelude.{◌≡◌, List, ℕ};
ghost use Rattle.pair.specs.Counts.{variable_moves};
ghost use Rattle.pair.specs.Ways.{mode_of};

// What depends on the way is asked of it here: which atoms move, whether a variable may be empty, and whether one may
// stand on both sides.
#[derive(Clone, Copy)]
pub enum Way {
    Unifying,
    Matching,
    Identity,
}

impl Way {
    // Whether a variable may be empty.
    pub fn may_be_empty(self) -> bool
        ensures { (L R : List ℕ) → (mode_of self L R).empties ≡ result }
    {
        matches!(self, Way::Identity)
    }

    // Whether a variable moves that stands so often on the left.
    pub(crate) fn moves(self, left: u8) -> bool
        ensures { result ≡ variable_moves self left }
    {
        match self {
            Way::Matching => 0 < left,
            Way::Unifying | Way::Identity => true,
        }
    }

    // Whether no variable may stand on both sides.
    pub(crate) fn is_separate(self) -> bool
        ensures { (L R : List ℕ) → (mode_of self L R).separate ≡ result }
    {
        matches!(self, Way::Matching)
    }
}
