// Answers questions in bytes (second/PROTOCOL.md), for the stored cases and the comparison with a second
// solver: reads questions from standard input until it ends and writes to standard output what each answered,
// with every byte of the lent buffers.

#![tactic(auto)]

mod answers;
mod ask;
mod question;
mod returned;

ghost use Rattle.std.specs.Prelude.{◌≤◌, length};

use answers::Answers;
use question::Header;

// The descriptor of standard input.
const STANDARD_INPUT: i32 = 0;

// How many questions are answered at most, so that the program ends.
const MOST_QUESTIONS: u64 = 1_000_000_000_000;

fn main() {
    let mut answers = Answers::new();
    answer_all(&mut answers);
    answers.write_out();
}

// Answers the questions one after the other. The answers go out together, where another may not have room.
fn answer_all(answers: &mut Answers) {
    for _ in 0..MOST_QUESTIONS {
        let mut header = [0u8; 20];
        if io::read_full(STANDARD_INPUT, &mut header) < 20 {
            break;
        }
        answer_next(Header::from(header), answers);
        answers.make_room();
    }
}

// Reads the bytes that follow a header, asks the question and puts its answer.
fn answer_next(asked: Header, answers: &mut Answers) {
    let mut first = io::buffer();
    let mut second = io::buffer();
    let first = read_bytes(&mut first, asked.first_length);
    let second = read_bytes(&mut second, asked.second_length);
    ask::ask(asked, first, second, answers);
}

// The next bytes of the question: so many, and at most as many as the buffer has.
fn read_bytes(buffer: &mut [u8], count: usize) -> &[u8]
    ensures { length result.now ≤ count }
{
    let end = count.min(buffer.len());
    io::read_full(STANDARD_INPUT, &mut buffer[..end]);
    &buffer[..end]
}
