// The limits that two sides and their rows must keep (document 01, "Numbers given in place of a result", 7 to 12).

// The least and the most atoms of a side.
pub const LEAST_ATOMS: usize = 1;

pub const MOST_ATOMS: usize = 64;

// The highest byte that is an atom.
pub const HIGHEST_ATOM: u8 = 127;

// The most distinct variables.
pub const VARIABLES: usize = 6;

// How far a net count may be from 0.
pub const NET_COUNT: u8 = 8;

// The most unbalanced constants.
pub const CONSTANTS: usize = 4;

// The most balanced rows, and the most rows of one constant.
pub const BALANCED_ROWS: usize = 16;

pub const CONSTANT_ROWS: usize = 16;
