// The answers that were put and not yet written out.
ghost use Rattle.std.specs.Prelude.{◌≤◌};

use buffer::put_bytes;

// The descriptor of standard output.
const STANDARD_OUTPUT: i32 = 1;

// How many bytes of answers are kept.
const ROOM: usize = 65_536;

// An answer is at most 8,217 bytes long, so that up to here another has room.
const LAST_START: usize = 57_000;

// The answers stand at the start of the bytes.
#[derive(Drop)]
pub struct Answers {
    bytes: [u8; ROOM],
    used: usize,
    ghost inside: { used ≤ 65536 },
}

impl Answers {
    // No answers.
    pub fn new() -> Answers {
        Answers {
            bytes: [0; ROOM],
            used: 0,
        }
    }

    // Puts bytes behind the answers so far, as far as there is room.
    pub fn put(&mut self, bytes: &[u8]) {
        let count = bytes.len().min(ROOM - self.used);
        self.used = put_bytes(&mut self.bytes, self.used, &bytes[..count]);
    }

    // Puts each number in four bytes, the high one first.
    pub fn put_numbers(&mut self, numbers: &[u32]) {
        for number in numbers {
            self.put(&number.to_be_bytes());
        }
    }

    // Writes the answers out where another may not have room.
    pub fn make_room(&mut self) {
        if LAST_START <= self.used {
            self.write_out();
        }
    }

    // Writes the answers out, and keeps none.
    pub fn write_out(&mut self) {
        io::write_all(STANDARD_OUTPUT, &self.bytes[..self.used]);
        self.used = 0;
    }
}
