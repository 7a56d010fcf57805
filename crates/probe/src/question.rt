// A question's header, 20 bytes, taken apart.
use list::Key;
use pair::ways::Way;
use solver::page::{Begin, PageRequest};

// What is asked, with what it takes beside the bytes that follow the header: a block's number, a way of listing, a
// page's request, or a key.
#[derive(Clone, Copy)]
pub enum Question {
    Read { number: u16 },
    Write { number: u16 },
    Count,
    Rows(Way),
    Page(Way, PageRequest),
    Values(Way, Key),
}

// The question, the byte that fills the lent buffers, the lengths of what follows, and those of the lent buffers.
#[derive(Clone, Copy)]
pub struct Header {
    pub question: Question,
    pub fill: u8,
    pub first_length: usize,
    pub second_length: usize,
    pub first_room: usize,
    pub second_room: usize,
}

// What a header's bytes say. Byte 15 has no meaning.
impl From<[u8; 20]> for Header {
    fn from(header: [u8; 20]) -> Header {
        Header {
            question: question_of(header),
            fill: header[1],
            first_length: length_of(header[2], header[3]),
            second_length: length_of(header[4], header[5]),
            first_room: length_of(header[16], header[17]),
            second_room: length_of(header[18], header[19]),
        }
    }
}

// A length has the high byte first.
fn length_of(high: u8, low: u8) -> usize {
    usize::from(u16::from_be_bytes([high, low]))
}

// The questions by number; any other number is Values.
fn question_of(header: [u8; 20]) -> Question {
    let number = u16::from_be_bytes([header[8], header[9]]);
    let key = u32::from_be_bytes([header[6], header[7], header[8], header[9]]);
    match header[0] {
        1 => Question::Read { number },
        2 => Question::Rows(Way::Unifying),
        3 => Question::Page(Way::Unifying, request_of(header, key)),
        5 => Question::Write { number },
        6 => Question::Rows(Way::Matching),
        7 => Question::Page(Way::Matching, request_of(header, key)),
        8 => Question::Values(Way::Matching, key),
        9 => Question::Count,
        10 => Question::Rows(Way::Identity),
        11 => Question::Page(Way::Identity, request_of(header, key)),
        12 => Question::Values(Way::Identity, key),
        _ => Question::Values(Way::Unifying, key),
    }
}

// A page begins after the key where byte 10 is 1, and else at the start.
fn request_of(header: [u8; 20], key: Key) -> PageRequest {
    let begin = if header[10] == 1 {
        Begin::After(key)
    } else {
        Begin::Start
    };
    let wanted = u32::from_be_bytes([header[11], header[12], header[13], header[14]]);
    PageRequest {
        begin,
        wanted: wanted as usize,
    }
}
