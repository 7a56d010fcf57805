// Library blocks: the question Read (document 01, "A library block" and "The questions"; document 02, R-1).

#![tactic(auto)]

pub mod header;
pub mod term;

ghost use Rattle.std.specs.Prelude.{◌≡◌, ◌≤◌, length};
ghost use Rattle.block.specs.Read.{told_read, ReadPromise};
ghost use Rattle.block.specs.Inner.{all_zero};
ghost use Rattle.block.specs.Terms.{ReadsTerms};

use buffer::put_bytes;
use header::{TermLengths, read_header};
use numbers::Refusal;
use term::{rename, take_apart};

// The lengths of the two flattened sides.
#[derive(Clone, Copy)]
pub struct Sides {
    pub left: usize,
    pub right: usize,
}

// The question Read: reads a block that is to have this number, and puts its flattened sides into the two buffers.
pub fn read(block: &[u8], number: u16, left: &mut [u8], right: &mut [u8]) -> Result<Sides, Refusal>
    ensures { ReadPromise block.now number left.old right.old
        (told_read result) left.new right.new }
{
    let room = left.len().min(right.len());
    if room < 64 {
        return Err(Refusal::ShortBuffer);
    }
    if block.len() != 512 {
        return Err(Refusal::BlockLength);
    }
    let lengths = read_header(block, number)?;
    read_terms(block, lengths, left, right)
}

// Reads the terms of a block of the right length, and the filler after them. The terms are flattened into two
// arrays, the right one's variables are renamed, and the buffers are written once nothing can be refused any more.
fn read_terms(
    block: &[u8],
    lengths: TermLengths,
    left: &mut [u8],
    right: &mut [u8],
) -> Result<Sides, Refusal>
    requires block_len { (length block.now ≡ 512) × (lengths.left ≤ 127) × (lengths.right ≤ 127) }
    requires in_bounds { (64 ≤ length left.old) × (64 ≤ length right.old) }
    ensures { ReadsTerms block.now lengths left.old right.old
        (told_read result) left.new right.new }
{
    let mut left_atoms = [0u8; 64];
    let mut right_atoms = [0u8; 64];
    let left_end = 4 + lengths.left;
    let right_end = left_end + lengths.right;
    let left_term = &block[4..left_end];
    let right_term = &block[left_end..right_end];
    let left_count = take_apart(left_term, &mut left_atoms).ok_or(Refusal::Term)?;
    let right_count = take_apart(right_term, &mut right_atoms).ok_or(Refusal::Term)?;
    if !all_zero(&block[right_end..510]) {
        return Err(Refusal::Filler);
    }
    put_bytes(left, 0, &left_atoms[..left_count]);
    rename(&mut right_atoms);
    put_bytes(right, 0, &right_atoms[..right_count]);
    Ok(Sides {
        left: left_count,
        right: right_count,
    })
}

// Whether every byte is 0.
fn all_zero(bytes: &[u8]) -> bool
    ensures { result ≡ all_zero bytes.now }
{
    bytes.iter().all(|byte| *byte == 0)
}
