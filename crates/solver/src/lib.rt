// The questions on two sides (document 01, "The questions"): Rows, Page and Values, and Count (document 02, R-7), a
// file for each.
//
// Each question settles 16, where a buffer is lent, then solves the pair, then asks the table. The functions whose
// names end in `_of` ask a table that is there already, so that a program with many questions of one pair solves it
// once.

#![tactic(auto)]

pub mod count;
pub mod page;
pub mod rows;
pub mod values;
