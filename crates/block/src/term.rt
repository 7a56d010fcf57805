// Terms in front notation (document 01, "A library block"): a byte's kind, flattening by recursion, and the right
// term's variables renamed (document 02, R-1).
ghost use Rattle.std.specs.Prelude.{◌≡◌, ◌*◌, ◌<◌, MatchOption, map, length};
ghost use Rattle.block.specs.Front.{on_the_right};
ghost use Rattle.block.specs.Inner.{Classified, BeginsNone, FoundTerm, SideTerm};
ghost use Rattle.block.specs.Table.{NoTerm};

// What a byte stands for where a term begins.
#[derive(Clone, Copy)]
pub enum ByteKind {
    Variable,
    Constant,
    Plus,
    Refused,
}

// Decides by the byte's range: variable, constant, plus, or no term.
pub fn classify(byte: u8) -> ByteKind
    ensures { Classified byte result }
{
    match byte {
        0..=31 => ByteKind::Variable,
        64..=127 => ByteKind::Constant,
        128 => ByteKind::Plus,
        _ => ByteKind::Refused,
    }
}

// A term that some bytes begin with: how many bytes it takes, and how many atoms it has.
#[derive(Clone, Copy)]
pub struct Flattened {
    pub bytes: usize,
    pub atoms: usize,
}

// Takes the term apart that the bytes begin with and puts its atoms at the start of the buffer, in the order
// in which they are read: after a plus the first term, then the second behind it, each from fewer bytes. Where
// the bytes begin with no term, the buffer may hold atoms of a part of one.
pub fn flatten(bytes: &[u8], buffer: &mut [u8]) -> Option<Flattened>
    requires { length bytes.now < 2 * length buffer.old }
    ensures { MatchOption result (BeginsNone bytes.now)
        (λ found. FoundTerm bytes.now buffer.old found buffer.new) }
{
    let byte = *bytes.first()?;
    match classify(byte) {
        ByteKind::Variable | ByteKind::Constant => {
            buffer[0] = byte;
            Some(Flattened { bytes: 1, atoms: 1 })
        }
        ByteKind::Plus => {
            let first = flatten(&bytes[1..], buffer)?;
            let second = flatten(&bytes[1 + first.bytes..], &mut buffer[first.atoms..])?;
            Some(Flattened {
                bytes: 1 + first.bytes + second.bytes,
                atoms: first.atoms + second.atoms,
            })
        }
        ByteKind::Refused => None,
    }
}

// Takes apart the term that the bytes are, all of them, and answers how many atoms it has.
pub fn take_apart(bytes: &[u8], buffer: &mut [u8]) -> Option<usize>
    requires { length bytes.now < 2 * length buffer.old }
    ensures { MatchOption result (NoTerm bytes.now)
        (λ count. SideTerm bytes.now buffer.old count buffer.new) }
{
    let term = flatten(bytes, buffer)?;
    if term.bytes < bytes.len() {
        return None;
    }
    Some(term.atoms)
}

// Makes each of the right term's atoms what it becomes.
pub fn rename(atoms: &mut [u8])
    ensures { atoms.new ≡ map on_the_right atoms.old }
{
    for atom in atoms.iter_mut() {
        *atom = on_the_right(*atom);
    }
}

// What an atom of the right term becomes: a variable gets the number 32 higher, and a constant stays.
fn on_the_right(atom: u8) -> u8
    ensures { result ≡ on_the_right atom }
{
    if atom < 64 { atom + 32 } else { atom }
}
