// A side of a line, read token by token: blanks, brackets, `+` and words.
ghost use Rattle.std.specs.Prelude.{◌^◌, ◌≡◌, false, List, ℕ, ◌+◌, ◌≤◌, ◌<◌, length, get_or, IsTrue, ◌↔◌};
ghost use Rattle.pattern.specs.Characters.{Blank};
ghost use Rattle.pattern.specs.Fault.{OfWord};
ghost use Rattle.pattern.specs.Inner.{Classified, Turns, Reached, Goes, Finishes, ReadsSide};

use crate::word::scan;
use crate::{Fault, Wrong};
use buffer::put_repeated;

// The most atoms of a side.
pub const MOST_ATOMS: usize = 64;

// What a byte stands for in a side.
#[derive(Clone, Copy)]
pub enum Character {
    Blank,
    Opening,
    Closing,
    Plus,
    Other,
}

// Where a byte leads: on, with so many brackets open and an item ended or not; or to a word.
#[derive(Clone, Copy)]
pub enum Turn {
    To { depth: usize, ended: bool },
    Word,
}

// How far a side has been read: the place of the next byte, whether an item has ended, how many brackets are open,
// and how many atoms there are so far. The place and the flag stand where a `Wrong` has its column and its fault, so that
// what a token gives is handed on without taking a number apart.
#[derive(Clone, Copy)]
pub struct Reading {
    pub at: usize,
    pub ended: bool,
    pub depth: usize,
    pub count: usize,
}

// Whether the byte is a space, a tab or a carriage return.
pub fn is_blank(byte: u8) -> bool
    ensures { IsTrue result ↔ Blank byte }
{
    matches!(byte, b' ' | b'\t' | b'\r')
}

// What the byte stands for.
fn classify(byte: u8) -> Character
    ensures { Classified byte result }
{
    match byte {
        b'(' => Character::Opening,
        b')' => Character::Closing,
        b'+' => Character::Plus,
        _ if is_blank(byte) => Character::Blank,
        _ => Character::Other,
    }
}

// Where the byte leads from here, or why it cannot stand here.
fn lead(byte: u8, depth: usize, ended: bool) -> Result<Turn, Fault>
    requires { depth + 1 < 2 ^ 64 }
    ensures { Turns byte depth ended result }
{
    match (classify(byte), ended) {
        (Character::Blank, _) => Ok(Turn::To { depth, ended }),
        (Character::Opening, false) => Ok(Turn::To {
            depth: depth + 1,
            ended: false,
        }),
        (Character::Closing, true) => {
            let depth = depth.checked_sub(1).ok_or(Fault::NotOpened)?;
            Ok(Turn::To { depth, ended: true })
        }
        (Character::Plus, true) => Ok(Turn::To {
            depth,
            ended: false,
        }),
        (Character::Other, false) => Ok(Turn::Word),
        (Character::Opening | Character::Other, true) => Err(Fault::PlusMissing),
        (Character::Closing | Character::Plus, false) => Err(Fault::ItemMissing),
    }
}

// One word more, where an item must come.
fn take_word(bytes: &[u8], reading: Reading, atoms: &mut [u8]) -> Result<Reading, Fault>
    requires reached { Reached bytes.now reading atoms.old }
    requires at_in_bounds { reading.at < length bytes.now }
    requires ended_value { (reading.ended ≡ false) × OfWord (get_or bytes.now reading.at 0) }
    ensures { Goes bytes.now reading.at result atoms.new }
{
    let word = scan(&bytes[reading.at..])?;
    if MOST_ATOMS - reading.count < word.times {
        return Err(Fault::TooManyAtoms);
    }
    let count = put_repeated(atoms, reading.count, word.atom, word.times);
    Ok(Reading {
        at: reading.at + word.length,
        ended: true,
        count,
        ..reading
    })
}

// One token more: a byte by itself, or a word.
fn take_token(bytes: &[u8], reading: Reading, atoms: &mut [u8]) -> Result<Reading, Fault>
    requires reached { Reached bytes.now reading atoms.old }
    requires at_in_bounds { reading.at < length bytes.now }
    ensures { Goes bytes.now reading.at result atoms.new }
{
    match lead(bytes[reading.at], reading.depth, reading.ended)? {
        Turn::To { depth, ended } => Ok(Reading {
            at: reading.at + 1,
            depth,
            ended,
            ..reading
        }),
        Turn::Word => take_word(bytes, reading, atoms),
    }
}

// How many atoms a side has that was read to its end.
fn finish(reading: Reading) -> Result<usize, Fault>
    ensures { (bytes atoms : List ℕ) → Reached bytes reading atoms → length bytes ≤ reading.at
        → Finishes bytes reading.at result atoms }
{
    match (reading.ended, reading.depth, reading.count) {
        (false, 0, 0) => Err(Fault::EmptySide),
        (false, _, _) => Err(Fault::ItemMissing),
        (true, 0, count) => Ok(count),
        (true, _, _) => Err(Fault::NotClosed),
    }
}

// Reads the side that stands at this place of a line, puts its atoms at the front of the buffer and returns how many
// there are. Where it is wrong the buffer may hold some of them.
pub fn read_side(bytes: &[u8], start: usize, atoms: &mut [u8]) -> Result<usize, Wrong>
    requires { (start + length bytes.now + 1 < 2 ^ 64) × (length atoms.old ≡ 64) }
    ensures { ReadsSide bytes.now start result atoms.new }
{
    let mut reading = Reading {
        at: 0,
        depth: 0,
        ended: false,
        count: 0,
    };
    while reading.at < bytes.len() {
        let column = start + reading.at + 1;
        reading = take_token(bytes, reading, atoms).map_err(|why| Wrong { column, why })?;
    }
    let column = start + reading.at + 1;
    finish(reading).map_err(|why| Wrong { column, why })
}
