// Document 01, "Answer numbers", answer 10 of request #101 and 11 of #104. An answer is an enum without data; its
// number is what the table says.
#![tactic(auto)]

ghost use Rattle.std.specs.Prelude.{◌≡◌};
ghost use Rattle.answer.specs.Number.{number_of};

#[derive(Clone, Copy, Debug, PartialEq, Eq)]
pub enum Answer {
    Done = 0,
    BadEnd = 1,
    NoRegister = 2,
    ReadOnly = 3,
    Blocked = 4,
    BadSymbol = 5,
    BadHealth = 6,
    BadLength = 7,
    NothingFound = 8,
    NotAcceptable = 9,
    ReadOnlyBits = 10,
    BadRecord = 11,
}

// The number in the table.
impl From<Answer> for u8 {
    ghost from_gives = { λ answer number. number ≡ number_of answer };

    fn from(answer: Answer) -> u8 {
        answer as u8
    }
}
