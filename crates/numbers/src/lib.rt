// The numbers that are given in place of a result (document 01's table), as one enum for every question.

#![tactic(auto)]

pub mod limits;

ghost use Rattle.std.specs.Prelude.{◌≡◌};
ghost use Rattle.numbers.specs.Numbers.{number_of};

// Why a question was refused: a variant for each row of the table, in its order, but for 17 (document 02, R-9), and
// then for those that document 02 adds. A net count has its atom beside it.
#[derive(Clone, Copy, Debug, PartialEq, Eq)]
pub enum Refusal {
    BlockLength,
    Check,
    BlockNumber,
    TermLength,
    Term,
    Filler,
    SideLength,
    NoAtom,
    Variables,
    NetCount(u8),
    Constants,
    Rows,
    NoUnifier,
    NotListed,
    LastKey,
    ShortBuffer,
    WrongSide,
    OnBothSides,
}

// The row's number in the table.
impl From<Refusal> for u8 {
    ghost from_gives = { λ refusal number. number ≡ number_of refusal };

    fn from(refusal: Refusal) -> u8 {
        match refusal {
            Refusal::BlockLength => 1,
            Refusal::Check => 2,
            Refusal::BlockNumber => 3,
            Refusal::TermLength => 4,
            Refusal::Term => 5,
            Refusal::Filler => 6,
            Refusal::SideLength => 7,
            Refusal::NoAtom => 8,
            Refusal::Variables => 9,
            Refusal::NetCount(_) => 10,
            Refusal::Constants => 11,
            Refusal::Rows => 12,
            Refusal::NoUnifier => 13,
            Refusal::NotListed => 14,
            Refusal::LastKey => 15,
            Refusal::ShortBuffer => 16,
            Refusal::WrongSide => 18,
            Refusal::OnBothSides => 19,
        }
    }
}
