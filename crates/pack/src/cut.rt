// A line taken together from pieces of the input. Of a line that is longer than a line may be, only that is kept.
ghost use Rattle.std.specs.Prelude.{◌≡◌, ℕ, ◌≤◌, ◌<◌, List, [], ◌++◌, length, Some, MatchOption};
ghost use Rattle.std.specs.Option.{ForSome};
ghost use Rattle.pack.specs.Cut.{most_bytes};

use buffer::put_bytes;

// The most bytes of a line.
pub const MOST_BYTES: usize = 4096;

// The line so far: how many bytes of it stand at the front of the buffer, or None where it has more than a line may.
#[derive(Drop)]
pub struct Line {
    pub bytes: [u8; MOST_BYTES],
    pub held: Option<usize>,
    ghost within: { ForSome held (λ count. count ≤ most_bytes) },
}

impl Line {
    ghost use Rattle.pack.specs.Held.{Holds};

    // A line of which nothing came yet.
    pub fn new() -> Line
        ensures { Holds result [] }
    {
        Line {
            bytes: [0; MOST_BYTES],
            held: Some(0),
        }
    }

    // Takes in the next bytes of the line; an empty line has none.
    pub fn append(&mut self, bytes: &[u8])
        ensures { (line : List ℕ) → Holds self.old line → Holds self.new (line ++ bytes.now) }
    {
        if bytes.is_empty() {
            return;
        }
        let Some(held) = self.held else {
            return;
        };
        if MOST_BYTES - held < bytes.len() {
            self.held = None;
            return;
        }
        put_bytes(&mut self.bytes, held, bytes);
        self.held = Some(held + bytes.len());
    }

    // All bytes of the line, or None where there are more than a line may have.
    pub fn whole(&self) -> Option<&[u8]>
        ensures { (line : List ℕ) → Holds self.now line
            → MatchOption result (most_bytes < length line) (λ bytes. (bytes.now ≡ line) × (length line ≤ most_bytes)) }
    {
        let held = self.held?;
        Some(&self.bytes[..held])
    }

    // The next line begins.
    pub fn clear(&mut self)
        ensures { Holds self.new [] }
    {
        self.held = Some(0);
    }
}
