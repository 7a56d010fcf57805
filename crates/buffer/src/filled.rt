// A lent buffer that is filled from a place on.
ghost use Rattle.std.specs.Prelude.{◌∷◌, [], length, replicate};

// The buffer, and the place up to which it is filled.
#[derive(Drop)]
pub struct Filled<'a> {
    pub buffer: &'a mut [u8],
    pub end: usize,
}

impl<'a> Filled<'a> {
    ghost use Rattle.buffer.specs.Filled.{HasRoomFor, Puts};

    // Puts the bytes behind what was put.
    #[tactic(auto, using(crate::proofs::Puts::put_part))]
    pub fn put(&mut self, bytes: &[u8])
        requires { HasRoomFor self.old (length bytes.now) }
        ensures { Puts self.old bytes.now self.new }
    {
        let end = self.end + bytes.len();
        self.buffer[self.end..end].copy_from_slice(bytes);
        self.end = end;
    }

    // Puts one byte behind them.
    pub fn put_byte(&mut self, byte: u8)
        requires { HasRoomFor self.old 1 }
        ensures { Puts self.old (byte ∷ []) self.new }
    {
        self.buffer[self.end] = byte;
        self.end += 1;
    }

    // Puts one byte behind them, as often as `times` says.
    #[tactic(auto, using(crate::proofs::Puts::put_part))]
    pub fn put_repeated(&mut self, byte: u8, times: usize)
        requires { HasRoomFor self.old times }
        ensures { Puts self.old (replicate times byte) self.new }
    {
        let end = self.end + times;
        self.buffer[self.end..end].fill(byte);
        self.end = end;
    }
}
