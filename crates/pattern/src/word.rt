// Words such as `v0`, `c12` and `3c5`: how often an atom stands there, its letter and its number.
ghost use Rattle.std.specs.Prelude.{◌^◌, ◌≡◌, ◌∷◌, ◌++◌, ◌+◌, ◌≤◌, ◌<◌, length};
ghost use Rattle.std.specs.Char.{is_ascii_digit};
ghost use Rattle.std.specs.List.{prefix_len};
ghost use Rattle.pattern.specs.Characters.{Digit, worth, Each};
ghost use Rattle.pattern.specs.Word.{Number, Multiple};
ghost use Rattle.pattern.specs.Inner.{Tells, Names, Spelled, Scans};

use crate::Fault;

// The highest number of an atom.
const HIGHEST_NUMBER: u8 = 63;

// The highest number of a variable that can be written.
const HIGHEST_WRITTEN: u8 = 31;

// A word at the front of some bytes: how often its atom stands there, the atom, and how many bytes it takes.
#[derive(Clone, Copy)]
pub struct Word {
    pub times: usize,
    pub atom: u8,
    pub length: usize,
}

// How many digits stand at the front of the bytes.
fn count_digits(bytes: &[u8]) -> usize
    ensures value { result ≡ prefix_len is_ascii_digit bytes.now }
    ensures upper_bound { result ≤ length bytes.now }
{
    bytes
        .iter()
        .take_while(|byte| byte.is_ascii_digit())
        .count()
}

// What a digit is worth.
fn worth(digit: u8) -> u8
    requires { Digit digit }
    ensures value { result ≡ worth digit }
    ensures upper_bound { result ≤ 9 }
{
    digit - b'0'
}

// The number that one or two digits say; no others say one.
fn read_number(digits: &[u8]) -> Option<u8>
    requires { Each Digit digits.now }
    ensures { Tells (Number digits.now) result }
{
    match digits {
        [digit] => Some(worth(*digit)),
        [tens, ones] => Some(worth(*tens) * 10 + worth(*ones)),
        _ => None,
    }
}

// How often the atom stands whose multiple has these digits: once where there are none; no multiple begins with 0.
fn read_multiple(digits: &[u8]) -> Option<u8>
    requires { Each Digit digits.now }
    ensures { Tells (Multiple digits.now) result }
{
    match digits {
        [] => Some(1),
        [b'0', ..] => None,
        _ => read_number(digits),
    }
}

// The atom that a letter and a number name.
fn name(letter: u8, number: u8) -> Result<u8, Fault>
    ensures { Names letter number result }
{
    match letter {
        b'v' if number <= HIGHEST_WRITTEN => Ok(number),
        b'v' if number <= HIGHEST_NUMBER => Err(Fault::NotWritten),
        b'c' if number <= HIGHEST_NUMBER => Ok(64 + number),
        _ => Err(Fault::NoAtom),
    }
}

// The word that has this multiple, this letter and these digits behind it.
fn spell(multiple: &[u8], letter: u8, digits: &[u8]) -> Result<Word, Fault>
    requires each { Each Digit multiple.now × (Digit letter → ⊥) × Each Digit digits.now }
    requires digits_len_bound { length multiple.now + 1 + length digits.now < 2 ^ 64 }
    ensures { Spelled (multiple.now ++ letter ∷ digits.now) result }
{
    let times = read_multiple(multiple).ok_or(Fault::NoAtom)?;
    let number = read_number(digits).ok_or(Fault::NoAtom)?;
    let atom = name(letter, number)?;
    Ok(Word {
        times: usize::from(times),
        atom,
        length: multiple.len() + 1 + digits.len(),
    })
}

// The word at the front of the bytes: its multiple, its letter and all the digits behind it.
pub fn scan(bytes: &[u8]) -> Result<Word, Fault>
    ensures { Scans bytes.now result }
{
    let (multiple, rest) = bytes.split_at(count_digits(bytes));
    let [letter, behind @ ..] = rest else {
        return Err(Fault::NoAtom);
    };
    spell(multiple, *letter, &behind[..count_digits(behind)])
}
