// The eighteen words: which one a number names, decided by cases and ranges in one place.
ghost use Rattle.fibre.specs.Names.{Names};

// Word 0; 1 to 8, counted from 0; 9; and 10 to 17, counted from 0.
#[derive(Clone, Copy, Debug, PartialEq, Eq)]
pub enum Word {
    Control,
    Message(usize),
    Status,
    Received(usize),
}

impl Word {
    // The word that a number names, none for a number outside.
    pub fn named(number: u16) -> Option<Word>
        ensures { Names number result }
    {
        match number {
            0 => Some(Word::Control),
            1..=8 => Some(Word::Message(usize::from(number - 1))),
            9 => Some(Word::Status),
            10..=17 => Some(Word::Received(usize::from(number - 10))),
            _ => None,
        }
    }
}
