// Keys of a solved pair: packed and taken apart by shifts and masks, weighed, and found on the list (document
// 01, "From sides to equations").

#![tactic(auto)]

pub mod rank;

ghost use Rattle.std.specs.Prelude.{◌≡◌, List, ℕ, ◌+◌, ◌*◌, ◌/◌, ◌^◌, ◌<◌, ◌≤◌, get_or};
ghost use Rattle.ac.specs.Limits.{limits};
ghost use Rattle.ac.specs.Rows.{Groups};
ghost use Rattle.ac.specs.Keys.{layout, bit, field_at, Fits};
ghost use Rattle.list.specs.Candidates.{StandsAmong, field_limit, admits, NoneInBlock, LeastWithin, OfMarkedGroups, OfTheirGroups};
ghost use Rattle.list.specs.List.{OfTheirList, NextFrom, LookedUp};
ghost use Rattle.list.specs.Reach.{takes_any, takes_all, reaches, NoRowBelow, InTuple, Weighs};
ghost use Rattle.list.specs.Runs.{selection_in, Fit, run_count, times_at};

use numbers::Refusal;
use numbers::limits::{CONSTANTS, VARIABLES};
use table::masks::{Masks, has_bit, missed_by};
use table::{ROWS, Table, row_start};

// What a selection is named by: 16 low bits for the balanced rows, and above them 4 fields of 4 bits; the lowest
// constant's stands highest.
pub type Key = u32;

pub const MASK_BITS: usize = 16;

pub const INDEX_BITS: usize = 4;

pub const INDEX_MASK: Key = 15;

pub const LOW_MASK: Key = 65_535;

// How many keys there can be.
pub const KEYS: u64 = 4_294_967_296;

// Whether the key takes balanced row `i`: bit i of the low 16.
fn takes(key: Key, i: usize) -> bool
    requires { i < layout.rows }
    ensures { result ≡ bit key i }
{
    has_bit(u64::from(key), i)
}

// The row index of constant number `g`: bits 28 to 31 for the lowest, for the next 24 to 27, then 20 to 23
// and 16 to 19.
fn index_at(key: Key, g: usize) -> usize
    requires { g < layout.constants }
    ensures { result ≡ field_at layout key g }
{
    (key >> (MASK_BITS + INDEX_BITS * (CONSTANTS - (g + 1))) & INDEX_MASK) as usize
}

// The key of a tuple of row indexes, a field for each constant, and a set of balanced rows, a bit for each.
fn pack(tuple: Key, mask: Key) -> Key
    requires { (tuple < 65536) × (mask < 2 ^ layout.rows) }
    ensures { result ≡ tuple * 2 ^ layout.rows + mask }
{
    tuple << MASK_BITS | mask
}

// A selection by its key, with what it takes rows of.
#[derive(Clone, Copy)]
pub struct KeyedSelection {
    pub key: Key,
    // the unbalanced constants, ascending, and how many there are
    pub constants: [u8; CONSTANTS],
    pub unbalanced: usize,
    // how many balanced rows there are
    pub balanced: usize,
}

// The selection that a key names of a solved pair.
pub fn selection_of(table: Table, key: Key) -> KeyedSelection
    ensures { result ≡ selection_in table key }
{
    KeyedSelection {
        key,
        constants: table.constants,
        unbalanced: table.unbalanced,
        balanced: table.sizes[0],
    }
}

// How often a run of the selection names its atom at the place. There is a run for each unbalanced constant,
// ascending, as its taken row says, and after them one for each balanced row, as that says if it is taken.
pub fn times(rows: &[u8; ROWS], selection: KeyedSelection, place: usize, run: usize) -> usize
    requires { Fit selection × (run < run_count selection) × (place < limits.variables) }
    ensures value { result ≡ times_at rows.now selection place run }
    ensures upper_bound { result < 256 }
{
    if run < selection.unbalanced {
        let index = index_at(selection.key, run);
        return usize::from(rows[row_start(run + 1, index) + place]);
    }
    let row = run - selection.unbalanced;
    if takes(selection.key, row) {
        usize::from(rows[row_start(0, row) + place])
    } else {
        0
    }
}

// Whether the key takes a balanced row that is one of the mask's: the low 16 bits and the mask have a bit in
// common.
fn takes_any(rows: u64, key: Key) -> bool
    ensures { result ≡ takes_any rows key }
{
    rows & u64::from(key & LOW_MASK) != 0
}

// Whether a row that the key takes is above 0 at the place: that of one of the constants, or a balanced one.
fn reached(masks: &Masks, place: usize, key: Key) -> bool
    requires { place < limits.variables }
    ensures { result ≡ reaches masks.now.reaching masks.now.unbalanced place key }
{
    let by_constant = (0..masks.unbalanced).any(|g| has_bit(
        masks.reaching[VARIABLES * (g + 1) + place],
        index_at(key, g),
    ));
    by_constant || takes_any(masks.reaching[place], key)
}

// The lowest row of a mask of balanced rows, or 16 if it has none.
fn lowest_row(rows: u64) -> usize
    ensures { (result ≤ layout.rows) × NoRowBelow rows result }
{
    (rows.trailing_zeros() as usize).min(MASK_BITS)
}

// The first number from the key on that may reach the place. Where the key does not, no number before the next
// multiple of the bit of the lowest balanced row above 0 there does: the bits of all such rows stay as they are.
fn first_reaching(masks: &Masks, place: usize, key: Key) -> u64
    requires { place < limits.variables }
    ensures in_tuple { InTuple key result }
    ensures weighs { Weighs (reaches masks.now.reaching masks.now.unbalanced place) key result }
{
    if reached(masks, place, key) {
        return u64::from(key);
    }
    block_end(key, lowest_row(masks.reaching[place]))
}

// The first number from the key on that may take all rows that must be taken: those are none or all balanced rows, so
// that the key does or its tuple's full mask is the only one.
fn first_taking(must: u64, key: Key) -> u64
    requires { must < 2 ^ layout.rows }
    ensures in_tuple { InTuple key result }
    ensures weighs { Weighs (takes_all must) key result }
{
    let taken = u64::from(key & LOW_MASK);
    u64::from(key) + must.saturating_sub(taken)
}

// The first number from the key on that may be admissible, of candidates: the key itself if it is, for it takes the
// rows that must be taken and each place is above 0 in at least one taken row. Else it is the farthest that a row or a
// missed place sends to.
fn weigh(masks: &Masks, key: Key) -> u64
    ensures in_tuple { InTuple key result }
    ensures weighs { OfMarkedGroups masks.now (λ G. Weighs (admits G masks.now.places masks.now.must) key result) }
{
    let mut first = first_taking(masks.must, key);
    for place in 0..masks.places {
        first = first.max(first_reaching(masks, place, key));
    }
    first
}

// How many values the field of constant number `g` may have: one for each of its rows; where there is no such
// constant only 0.
fn field_limit(masks: &Masks, g: usize) -> usize
    requires { g < layout.constants }
    ensures { result ≡ field_limit masks.now.sizes masks.now.unbalanced g }
{
    if g < masks.unbalanced {
        masks.sizes[g + 1]
    } else {
        1
    }
}

// The end of the block of 2 to the power of `bits` numbers in which the key stands. It may be past the highest key.
fn block_end(key: Key, bits: usize) -> u64
    requires { bits ≤ 32 }
    ensures { result ≡ (key / 2 ^ bits + 1) * 2 ^ bits }
{
    (u64::from(key) >> bits) + 1 << bits
}

// The end of the gap between candidates in which the key stands: none comes before it from the key on. A candidate
// stands in no gap. Up to the end of its block a field only grows, so that one which is too large stays so.
fn gap_end(masks: &Masks, key: Key) -> Option<u64>
    ensures { StandsAmong masks.now.sizes masks.now.unbalanced key result }
{
    for g in 0..CONSTANTS {
        if index_at(key, g) >= field_limit(masks, g) {
            return Some(block_end(key, MASK_BITS + INDEX_BITS * (CONSTANTS - g)));
        }
    }
    if (key & LOW_MASK) >> masks.sizes[0] > 0 {
        return Some(block_end(key, MASK_BITS));
    }
    None
}

// The least admissible key from a key on that has its row indexes: the sets of balanced rows are taken in the
// order of their masks, and those that lack a row or miss a place are passed over.
fn least_of_tuple(masks: &Masks, key: Key) -> Option<Key>
    ensures { OfMarkedGroups masks.now (λ G. LeastWithin (admits G masks.now.places masks.now.must) key
        (key / 2 ^ layout.rows * 2 ^ layout.rows + 2 ^ get_or masks.now.sizes 0 0) result) }
{
    let tuple = key >> MASK_BITS;
    let mut mask = key & LOW_MASK;
    while mask >> masks.sizes[0] == 0 {
        let tried = pack(tuple, mask);
        let passed_over = weigh(masks, tried) - u64::from(tried);
        if passed_over == 0 {
            return Some(tried);
        }
        mask += passed_over as Key;
    }
    None
}

// How many bits the widest block has that is left with the key's tuple. The row indexes are fixed one after the
// other: once rows of the later constants cannot reach together what is still missing, no key with the indexes so
// far is admissible.
fn left_bits(masks: &Masks, key: Key) -> usize
    ensures lower_bound { (layout.rows ≤ result) × (result ≤ 32) }
    ensures by_index { layout.rows < result → OfTheirGroups masks.now (λ G. NoneInBlock G masks.now.places key result) }
{
    let mut missing = masks.unreached;
    for g in 0..masks.unbalanced {
        missing &= missed_by(&masks.reaching, masks.places, g + 1, 1 << index_at(key, g));
        if !has_bit(masks.choices[g + 1], missing) {
            return MASK_BITS + INDEX_BITS * (CONSTANTS - (g + 1));
        }
    }
    MASK_BITS
}

// The least key on the list from a number on. Where rows of all constants cannot reach together what balanced rows
// do not, nothing is listed. The highest key may be listed, so that the number after it needs 64 bits.
pub fn least_listed(masks: &Masks, from: u64) -> Option<Key>
    ensures { OfTheirList masks.now (λ keys. NextFrom keys from result) }
{
    if !has_bit(masks.choices[0], masks.unreached) {
        return None;
    }
    let mut at = from;
    while at < KEYS {
        let key = at as Key;
        if let Some(end) = gap_end(masks, key) {
            at = end;
            continue;
        }
        let least = least_of_tuple(masks, key);
        if least.is_some() {
            return least;
        }
        at = block_end(key, left_bits(masks, key));
    }
    None
}

// Whether a key is on the list, or why not: a key is listed if the least listed key from it on is itself. Else it is 14,
// or 13 where nothing is listed.
pub fn find_key(masks: &Masks, key: Key) -> Result<(), Refusal>
    ensures { OfTheirList masks.now (λ listed. LookedUp listed key result) }
{
    match least_listed(masks, u64::from(key)) {
        Some(least) if least == key => Ok(()),
        None if least_listed(masks, 0).is_none() => Err(Refusal::NoUnifier),
        _ => Err(Refusal::NotListed),
    }
}
