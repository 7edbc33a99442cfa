// Request #105: why a frame failed, and what became of a collection.
ghost use Rattle.std.specs.Prelude.{◌≡◌};
ghost use Rattle.frame.specs.Reason.{reason_number, place_of, is_accepted};

// What the frame check says of twelve symbols, and an end of its collection with each symbol that it takes.
#[derive(Clone, Copy, Debug, PartialEq, Eq)]
pub enum Reason {
    // no twelve symbols to look at; no collection ended
    Nothing,
    Accepted,
    // the CRC alone is wrong
    Crc,
    // the lowest symbol at fault stands at this place and is marked
    Marked(u8),
    // it has the wrong parity; in a collection that is an even symbol that came early
    Parity(u8),
}

impl Reason {
    // The place of the symbol at fault, which is how many symbols stood before it; 0 where there is none.
    pub fn place(self) -> u8
        ensures { result ≡ place_of self }
    {
        match self {
            Reason::Nothing | Reason::Accepted | Reason::Crc => 0,
            Reason::Marked(place) | Reason::Parity(place) => place,
        }
    }

    // Whether it is that a frame was accepted.
    pub fn is_accepted(self) -> bool
        ensures { result ≡ is_accepted self }
    {
        matches!(self, Reason::Accepted)
    }
}

// The reason's number.
impl From<Reason> for u8 {
    ghost from_gives = { λ reason number. number ≡ reason_number reason };

    fn from(reason: Reason) -> u8 {
        match reason {
            Reason::Nothing => 0,
            Reason::Accepted => 1,
            Reason::Crc => 2,
            Reason::Marked(_) => 3,
            Reason::Parity(_) => 4,
        }
    }
}
