// Writing library blocks: the question Write (document 02, R-3).

#![tactic(auto)]

ghost use Rattle.std.specs.Prelude.{◌≡◌, ◌+◌, ◌-◌, ◌*◌, ◌≤◌, ◌<◌, ◌&&◌, nat_le, map, length, take};
ghost use Rattle.std.specs.List.{list_any};
ghost use Rattle.buffer.specs.Put.{Put};
ghost use Rattle.writing.specs.Written.{front, as_written, high_first, up_to_terms, block_of};
ghost use Rattle.writing.specs.Write.{told_write, WritePromise};

use block::header::check_of;
use buffer::{put_bytes, put_repeated};
use numbers::Refusal;
use numbers::limits::{LEAST_ATOMS, MOST_ATOMS};
use pair::limits::{wrong_byte, wrong_length};

// The question Write: writes the block of two flattened sides that has this number into the buffer.
pub fn write(left: &[u8], right: &[u8], number: u16, block: &mut [u8]) -> Result<(), Refusal>
    ensures { WritePromise left.now right.now number block.old
        (told_write result) block.new }
{
    if block.len() < 512 {
        return Err(Refusal::ShortBuffer);
    }
    if wrong_length(LEAST_ATOMS, left) || wrong_length(LEAST_ATOMS, right) {
        return Err(Refusal::SideLength);
    }
    if wrong_byte(left) || wrong_byte(right) {
        return Err(Refusal::NoAtom);
    }
    if holds_variable(left, 32, 63) || holds_variable(right, 0, 31) {
        return Err(Refusal::WrongSide);
    }
    write_block(left, right, number, &mut block[..512]);
    Ok(())
}

// Whether the side holds a variable from the first number to the last.
fn holds_variable(side: &[u8], first: u8, last: u8) -> bool
    ensures { result ≡ list_any (λ atom. nat_le first atom && nat_le atom last) side.now }
{
    side.iter().any(|atom| first <= *atom && *atom <= last)
}

// Writes the block of two sides that may be written, all its 512 bytes.
fn write_block(left: &[u8], right: &[u8], number: u16, block: &mut [u8])
    requires left_nonzero { (0 < length left.now) × (length left.now ≤ 64) }
    requires right_nonzero { (0 < length right.now) × (length right.now ≤ 64) }
    requires block_len { length block.old ≡ 512 }
    ensures { block.new ≡ block_of number left.now right.now }
{
    let right_atoms = lowered(right);
    let end = put_terms(left, &right_atoms[..right.len()], number, block);
    put_repeated(block, end, 0, 510 - end);
    let check = check_of(block);
    put_number(block, 510, check);
}

// Puts what stands before the filler, for two sides as they are written: the number, the lengths of the terms, and the
// terms.
fn put_terms(left: &[u8], right: &[u8], number: u16, block: &mut [u8]) -> usize
    requires left_nonzero { (0 < length left.now) × (length left.now ≤ 64) }
    requires right_nonzero { (0 < length right.now) × (length right.now ≤ 64) }
    requires block_len { length block.old ≡ 512 }
    ensures { Put block.old 0
        (up_to_terms number (front left.now) (front right.now)) result block.new }
{
    let lengths = [term_length(left.len()), term_length(right.len())];
    let number_end = put_number(block, 0, number);
    let lengths_end = put_bytes(block, number_end, &lengths);
    let left_end = put_term(block, lengths_end, left);
    put_term(block, left_end, right)
}

// Puts a number of two bytes, the high one first.
fn put_number(out: &mut [u8], at: usize, number: u16) -> usize
    requires { at + 2 ≤ length out.old }
    ensures { Put out.old at (high_first number) result out.new }
{
    put_bytes(out, at, &number.to_be_bytes())
}

// How many bytes a side of so many atoms is written in: each but the last has 128 before it.
fn term_length(atoms: usize) -> u8
    requires { (0 < atoms) × (atoms ≤ 64) }
    ensures { result ≡ 2 * atoms - 1 }
{
    (2 * atoms - 1) as u8
}

// Puts a side as a term: 128 and an atom for each atom but the last, and then the last.
fn put_term(out: &mut [u8], at: usize, atoms: &[u8]) -> usize
    requires atoms_nonzero { 0 < length atoms.now }
    requires atoms_in_bounds { at + 2 * length atoms.now ≤ length out.old }
    ensures { Put out.old at (front atoms.now) result out.new }
{
    let last = atoms.len() - 1;
    let mut place = at;
    for atom in &atoms[..last] {
        place = put_bytes(out, place, &[128, *atom]);
    }
    put_bytes(out, place, &atoms[last..])
}

// A right side's atoms as they are written, at the start of an array that is long enough for every side.
fn lowered(right: &[u8]) -> [u8; MOST_ATOMS]
    requires { length right.now ≤ 64 }
    ensures { take (length right.now) result ≡ map as_written right.now }
{
    let mut lowered = [0u8; MOST_ATOMS];
    let atoms = &mut lowered[..right.len()];
    atoms.copy_from_slice(right);
    for atom in atoms.iter_mut() {
        *atom = as_written(*atom);
    }
    lowered
}

// How a right side's atom is written: a variable v32 to v63 32 lower, and a constant as it is.
fn as_written(atom: u8) -> u8
    ensures { result ≡ as_written atom }
{
    match atom {
        32..=63 => atom - 32,
        _ => atom,
    }
}
