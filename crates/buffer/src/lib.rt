// Bytes put into a lent buffer from a place on.
//
// Every function that puts answers the place after what it put, and leaves every other byte of the buffer as it was.

#![tactic(auto)]

pub mod answer;
pub mod filled;

ghost use Rattle.std.specs.Prelude.{◌+◌, ◌≤◌, length, replicate};
ghost use Rattle.buffer.specs.Put.{Put};

// The bytes as they stand in another slice.
#[tactic(auto, using(crate::proofs::Puts::put_part))]
pub fn put_bytes(out: &mut [u8], at: usize, bytes: &[u8]) -> usize
    requires { at + length bytes.now ≤ length out.old }
    ensures { Put out.old at bytes.now result out.new }
{
    let end = at + bytes.len();
    out[at..end].copy_from_slice(bytes);
    end
}

// One byte, as often as `times` says.
#[tactic(auto, using(crate::proofs::Puts::put_part))]
pub fn put_repeated(out: &mut [u8], at: usize, byte: u8, times: usize) -> usize
    requires { at + times ≤ length out.old }
    ensures { Put out.old at (replicate times byte) result out.new }
{
    let end = at + times;
    out[at..end].fill(byte);
    end
}
