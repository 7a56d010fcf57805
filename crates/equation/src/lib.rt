// The rows of one equation: its minimal solutions, in ascending order.

#![tactic(auto)]

mod kept;
mod searched;
mod standing;
mod walk;

ghost use Rattle.std.specs.Prelude.{◌≤◌};
ghost use Rattle.ac.specs.Limits.{limits};
ghost use Rattle.equation.specs.Found.{equation_by, Finds};

use numbers::limits::{BALANCED_ROWS, VARIABLES};
use searched::Searched;

// What is added to the two sums, and whether all-zero vectors are left out.
#[derive(Clone, Copy)]
pub struct Offsets {
    pub left: u8,
    pub right: u8,
    pub homogeneous: bool,
}

// An equation by its coefficients, in net parts, at the places in use, and its offsets.
#[derive(Clone, Copy)]
pub struct NetEquation {
    pub left: [u8; VARIABLES],
    pub right: [u8; VARIABLES],
    pub places: usize,
    pub offsets: Offsets,
}

// The bytes of as many rows as a group may have; no group may have more than the balanced one.
pub const ROOM: usize = BALANCED_ROWS * VARIABLES;

// The rows of an equation, one after the other from the first byte on, and their number.
#[derive(Clone, Copy)]
pub struct FoundRows {
    pub rows: [u8; ROOM],
    pub number: usize,
}

// The rows of an equation, if they are at most as many as the limit says.
pub fn find_rows(equation: NetEquation, limit: usize) -> Option<FoundRows>
    requires { (equation.places ≤ limits.variables) × (limit ≤ limits.balanced_rows) }
    ensures { Finds limit (equation_by equation) result }
{
    let places = equation.places;
    let left = equation.left;
    let right = equation.right;
    Searched::of(&left[..places], &right[..places], limit).search(equation.offsets)
}
