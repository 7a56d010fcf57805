// What stands before a block's terms, and the check (document 01, "A library block"): numbers 2 to 4.
ghost use Rattle.std.specs.Prelude.{◌≡◌, ◌≤◌, ◌↔◌, IsTrue, MatchResult, length, sum};
ghost use Rattle.block.specs.Block.{check_of_bytes};
ghost use Rattle.block.specs.Inner.{IsLength, BlockRefuses, HeaderLengths};

use numbers::Refusal;

// The lengths of the two terms.
#[derive(Clone, Copy)]
pub struct TermLengths {
    pub left: usize,
    pub right: usize,
}

// Settles 2 to 4, in this order, for a block of the right length.
pub fn read_header(block: &[u8], number: u16) -> Result<TermLengths, Refusal>
    requires { length block.now ≡ 512 }
    ensures { MatchResult result (λ lengths. HeaderLengths block.now number lengths)
        (λ refusal. BlockRefuses block.now number refusal) }
{
    if u16::from_be_bytes([block[510], block[511]]) != check_of(block) {
        return Err(Refusal::Check);
    }
    if u16::from_be_bytes([block[0], block[1]]) != number {
        return Err(Refusal::BlockNumber);
    }
    if !is_term_length(block[2]) || !is_term_length(block[3]) {
        return Err(Refusal::TermLength);
    }
    Ok(TermLengths {
        left: usize::from(block[2]),
        right: usize::from(block[3]),
    })
}

// 65,535 minus the sum of bytes 0 to 509, modulo 65,536.
pub fn check_of(block: &[u8]) -> u16
    requires { length block.now ≡ 512 }
    ensures { result ≡ check_of_bytes block.now }
{
    65535 - (sum(&block[..510]) % 65536) as u16
}

// The sum of the bytes that have a check.
fn sum(bytes: &[u8]) -> u32
    requires { length bytes.now ≤ 510 }
    ensures { result ≡ sum bytes.now }
{
    bytes.iter().map(|byte| u32::from(*byte)).sum()
}

// Whether it is the length of a term, 1 to 127.
fn is_term_length(length: u8) -> bool
    ensures { IsTrue result ↔ IsLength length }
{
    matches!(length, 1..=127)
}
