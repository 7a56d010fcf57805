// The text of numbers, atoms, values and substitutions, put into a lent buffer.
//
// Every function puts its text behind what the buffer is filled with, and leaves every other byte as it was. Its
// premise asks for the bytes that the text takes at most, 5 for an atom with its + and 6 for a byte of Values, and
// for some more, since a number is put where there is room for 20 digits.

#![tactic(auto)]

ghost use Rattle.std.specs.Prelude.{◌≡◌, List, ◌∷◌, ◌++◌, ◌+◌, ◌*◌, ◌≤◌, ◌<◌, min, length, get_or};
ghost use Rattle.text.specs.Ascii.{ascii};
ghost use Rattle.text.specs.Decimal.{decimal};
ghost use Rattle.ac.specs.Values.{Binding, laid_out};
ghost use Rattle.buffer.specs.Filled.{HasRoomFor, Puts, PutsAtMost};
ghost use Rattle.text.specs.Text.{name, further, joined, binding_of, bound, spaced, substitution};

use buffer::filled::Filled;

// The number in decimal.
pub fn put_number(out: &mut Filled, number: u64)
    requires { HasRoomFor out.old 20 }
    ensures { Puts out.old (decimal number) out.new }
{
    let mut digits = [0u8; 20];
    let count = io::decimal(number, &mut digits);
    out.put(&digits[..count]);
}

// A letter and a number behind it.
fn put_lettered(out: &mut Filled, letter: u8, number: u8)
    requires { HasRoomFor out.old 24 }
    ensures { Puts out.old (letter ∷ decimal number) out.new }
{
    out.put_byte(letter);
    put_number(out, u64::from(number));
}

// The name of an atom: v, c or n and its number.
pub fn put_name(out: &mut Filled, atom: u8)
    requires { HasRoomFor out.old 24 }
    ensures { Puts out.old (name atom) out.new }
{
    match atom {
        0..=63 => put_lettered(out, b'v', atom),
        64..=191 => put_lettered(out, b'c', atom - 64),
        192.. => put_lettered(out, b'n', atom - 192),
    }
}

// Further atoms of a value, each with the + that joins it.
fn put_further(out: &mut Filled, atoms: &[u8])
    requires { HasRoomFor out.old (5 * length atoms.now + 24) }
    ensures { Puts out.old (further atoms.now) out.new }
{
    for atom in atoms {
        out.put_byte(b'+');
        put_name(out, *atom);
    }
}

// The atoms of a value in order, joined by +.
pub fn put_value(out: &mut Filled, atoms: &[u8])
    requires { HasRoomFor out.old (5 * length atoms.now + 24) }
    ensures { Puts out.old (joined atoms.now) out.new }
{
    if let [first, rest @ ..] = atoms {
        put_name(out, *first);
        put_further(out, rest);
    }
}

// A variable with its value, from its bytes in the layout of Values: the variable's byte, a count and the
// atoms.
fn put_bound(out: &mut Filled, bytes: &[u8])
    requires bytes_nonzero { 0 < length bytes.now }
    requires bytes_in_bounds { HasRoomFor out.old (5 * length bytes.now + 30) }
    ensures put { Puts out.old (bound (binding_of bytes.now)) out.new }
    ensures upper_bound { out.new.end ≤ out.old.end + 5 * length bytes.now }
{
    put_name(out, bytes[0]);
    out.put_byte(b'=');
    put_value(out, &bytes[bytes.len().min(2)..]);
}

// How many bytes the first binding has: its variable, its count and its atoms, or all where the bytes run out before.
fn binding_length(values: &[u8]) -> usize
    ensures { result ≡ min (2 + get_or values.now 1 0) (length values.now) }
{
    match values {
        [_, count, ..] => values.len().min(2 + usize::from(*count)),
        _ => values.len(),
    }
}

// Further variables with their values, each after a space.
fn put_spaced(out: &mut Filled, values: &[u8])
    requires { HasRoomFor out.old (6 * length values.now + 31) }
    ensures put { (bs : List Binding) → laid_out bs ≡ values.now
        → Puts out.old (spaced bs) out.new }
    ensures at_most { PutsAtMost (6 * length values.now) out.old out.new }
{
    let mut rest = values;
    while !rest.is_empty() {
        let (binding, others) = rest.split_at(binding_length(rest));
        out.put_byte(b' ');
        put_bound(out, binding);
        rest = others;
    }
}

// The substitution that the bytes of Values say; one without variables is -.
pub fn put_substitution(out: &mut Filled, values: &[u8])
    requires { HasRoomFor out.old (6 * length values.now + 31) }
    ensures put { (bs : List Binding) → laid_out bs ≡ values.now
        → Puts out.old (substitution bs) out.new }
    ensures at_most { PutsAtMost (6 * length values.now + 1) out.old out.new }
{
    if values.is_empty() {
        out.put_byte(b'-');
        return;
    }
    let (binding, others) = values.split_at(binding_length(values));
    put_bound(out, binding);
    put_spaced(out, others);
}
