// The questions, each with the buffers that it is lent.
use crate::answers::Answers;
use crate::question::{Header, Question};
use crate::returned::{of_count, of_length, of_nothing, of_page, of_sides, of_sizes, put_returned};

// The most that is lent: so many bytes, or so many keys, which are shown as four bytes each.
const MOST_BYTES: usize = 4096;

const MOST_KEYS: usize = MOST_BYTES / 4;

// Asks the question that the header names, of the bytes that followed it, and puts its answer behind the
// answers so far: what was returned, then every byte of the lent buffers. Page is lent numbers, each the byte that
// fills it four times, and every other question bytes; Read is lent a second buffer.
pub fn ask(asked: Header, first: &[u8], second: &[u8], answers: &mut Answers) {
    let mut bytes = [asked.fill; MOST_BYTES];
    let mut keys = [u32::from_be_bytes([asked.fill; 4]); MOST_KEYS];
    let mut second_bytes = [asked.fill; MOST_BYTES];
    let bytes = &mut bytes[..asked.first_room.min(MOST_BYTES)];
    let keys = &mut keys[..asked.first_room.min(MOST_KEYS)];
    let second_bytes = &mut second_bytes[..asked.second_room.min(MOST_BYTES)];
    let returned = match asked.question {
        Question::Read { number } => {
            block::read(first, number, bytes, second_bytes).map(of_sides)
        }
        Question::Write { number } => writing::write(first, second, number, bytes).map(of_nothing),
        Question::Count => solver::count::count(first, second).map(of_count),
        Question::Rows(way) => solver::rows::rows(way, first, second, bytes).map(of_sizes),
        Question::Page(way, request) => {
            solver::page::page(way, first, second, request, keys).map(of_page)
        }
        Question::Values(way, key) => {
            solver::values::values(way, first, second, key, bytes).map(of_length)
        }
    };
    put_returned(answers, returned);
    match asked.question {
        Question::Page(..) => answers.put_numbers(keys),
        _ => answers.put(bytes),
    }
    answers.put(second_bytes);
}
