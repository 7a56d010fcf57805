// What a question returned: six numbers, unused ones 0, or a refusal.
use crate::answers::Answers;
use block::Sides;
use numbers::Refusal;
use solver::page::Written;
use solver::rows::Sizes;

// Read: the lengths of the sides.
pub fn of_sides(sides: Sides) -> [u32; 6] {
    [small(sides.left), small(sides.right), 0, 0, 0, 0]
}

// Rows: the balanced rows, how many constants are unbalanced, and the rows of each.
pub fn of_sizes(sizes: Sizes) -> [u32; 6] {
    [
        sizes.balanced,
        sizes.constants,
        sizes.first,
        sizes.second,
        sizes.third,
        sizes.fourth,
    ]
    .map(small)
}

// Page: the keys written, 1 if more follow, and how many candidate keys were weighed, the high half first.
pub fn of_page(page: Written) -> [u32; 6] {
    let [high, low] = halves(page.weighed);
    [small(page.written), u32::from(page.more), high, low, 0, 0]
}

// Values: the length.
pub fn of_length(length: usize) -> [u32; 6] {
    [small(length), 0, 0, 0, 0, 0]
}

// Count: the number, the high half first.
pub fn of_count(unifiers: u64) -> [u32; 6] {
    let [high, low] = halves(unifiers);
    [high, low, 0, 0, 0, 0]
}

// Write: nothing beside what stands in the buffer.
pub fn of_nothing(_: ()) -> [u32; 6] {
    [0; 6]
}

// The low four bytes of a number.
fn small(number: usize) -> u32 {
    (number & 0xFFFF_FFFF) as u32
}

// A number of eight bytes in halves, the high one first.
fn halves(number: u64) -> [u32; 2] {
    [(number >> 32) as u32, (number & 0xFFFF_FFFF) as u32]
}

// Puts what was returned: 0 or the refusal's number, and then the numbers. A refusal has none but the atom that it
// names.
pub fn put_returned(answers: &mut Answers, returned: Result<[u32; 6], Refusal>) {
    let (number, values) = match returned {
        Ok(values) => (0, values),
        Err(refusal) => (u8::from(refusal), [named_atom(refusal), 0, 0, 0, 0, 0]),
    };
    answers.put(&[number]);
    answers.put_numbers(&values);
}

// The atom that a refusal names, and else 0.
fn named_atom(refusal: Refusal) -> u32 {
    match refusal {
        Refusal::NetCount(atom) => u32::from(atom),
        _ => 0,
    }
}
