// The place of a byte among others.
ghost use Rattle.std.specs.Prelude.{◌≡◌, ◌==◌, position};

// The first place at which the byte stands, if there is one.
pub fn find(bytes: &[u8], byte: u8) -> Option<usize>
    ensures { result ≡ position (λ b. b == byte) bytes.now }
{
    bytes.iter().position(|b| *b == byte)
}
