// A pair as a person writes it, a line such as `v0+2v1 = c0+c1`, read as two flattened sides.
//
// A side is a sum of words, such as v0, c12 or 3c5, and of sums in brackets, which have no meaning. The two sides have
// separate variables, v0 to v31 each: those of the right side get the number 32 higher. What follows # is a remark.

#![tactic(auto)]

pub mod scan;
mod side;
mod word;

ghost use Rattle.std.specs.Prelude.{◌^◌, List, ◌++◌, ℕ, ◌+◌, ◌<◌, length, All, IsTrue, ◌↔◌};
ghost use Rattle.pattern.specs.Characters.{NoRemark, Blank, Each};
ghost use Rattle.pattern.specs.Line.{Remark};
ghost use Rattle.pattern.specs.Answer.{LineSays};
ghost use Rattle.pattern.specs.Inner.{SidesSay};

use block::Sides;
use block::term::rename;
use buffer::put_bytes;
use scan::find;
use side::{is_blank, read_side};

// What can be wrong with a line.
#[derive(Clone, Copy)]
pub enum Fault {
    NoAtom,
    NotWritten,
    ItemMissing,
    PlusMissing,
    NotOpened,
    NotClosed,
    EmptySide,
    TooManyAtoms,
    NoEquals,
    SecondEquals,
}

// What is wrong with a line, and at which column, counted from 1.
#[derive(Clone, Copy)]
pub struct Wrong {
    pub column: usize,
    pub why: Fault,
}

// Reads a line, and puts the flattened sides of its pair into the two buffers; None where the line says nothing.
pub fn read_line(
    line: &[u8],
    left: &mut [u8; 64],
    right: &mut [u8; 64],
) -> Result<Option<Sides>, Wrong>
    ensures { LineSays line.now left.old right.old result left.new
        right.new }
{
    let end = find(line, b'#').unwrap_or(line.len());
    read_text(&line[..end], left, right)
}

// Reads what stands before a line's remark.
fn read_text(text: &[u8], left: &mut [u8; 64], right: &mut [u8; 64]) -> Result<Option<Sides>, Wrong>
    requires { Each NoRemark text.now }
    ensures { (rest : List ℕ) → Remark rest → LineSays (text.now ++ rest) left.old
        right.old result left.new right.new }
{
    if all_blank(text) {
        return Ok(None);
    }
    let Some(equals) = find(text, b'=') else {
        return Err(Wrong {
            column: text.len() + 1,
            why: Fault::NoEquals,
        });
    };
    let second = &text[equals + 1..];
    if let Some(further) = find(second, b'=') {
        return Err(Wrong {
            column: equals + 1 + further + 1,
            why: Fault::SecondEquals,
        });
    }
    let sides = read_sides(&text[..equals], second, left, right)?;
    Ok(Some(sides))
}

// Whether every byte is blank.
fn all_blank(bytes: &[u8]) -> bool
    ensures { IsTrue result ↔ All Blank bytes.now }
{
    bytes.iter().all(|byte| is_blank(*byte))
}

// Reads the sides that stand before and behind the `=`. Their atoms are put into two arrays, those of the right side
// are renamed, and the buffers are written once nothing can be wrong any more.
fn read_sides(
    first: &[u8],
    second: &[u8],
    left: &mut [u8; 64],
    right: &mut [u8; 64],
) -> Result<Sides, Wrong>
    requires { length first.now + 1 + length second.now + 1 < 2 ^ 64 }
    ensures { SidesSay first.now second.now left.old right.old result
        left.new right.new }
{
    let mut left_atoms = [0u8; 64];
    let mut right_atoms = [0u8; 64];
    let left_count = read_side(first, 0, &mut left_atoms)?;
    let right_count = read_side(second, first.len() + 1, &mut right_atoms)?;
    rename(&mut right_atoms);
    put_bytes(left, 0, &left_atoms[..left_count]);
    put_bytes(right, 0, &right_atoms[..right_count]);
    Ok(Sides {
        left: left_count,
        right: right_count,
    })
}
