// The parts of a block. Each goes as one message.
ghost use Rattle.std.specs.Prelude.{◌≡◌, ◌*◌, ◌<◌, ◌≤◌, MatchOption};

use crate::PARTS;

// The number of a part of a block: one of 0 to 15.
#[derive(Clone, Copy)]
pub(crate) struct Part {
    pub number: u8,
    ghost in_block: { number < 16 },
}

impl Part {
    // The part of that number, where a block has one.
    pub(crate) fn numbered(number: u8) -> Option<Part>
        ensures { MatchOption result (16 ≤ number) (λ part. part.number ≡ number) }
    {
        if number < PARTS {
            Some(Part { number })
        } else {
            None
        }
    }

    // Where the part begins in a block.
    pub(crate) fn place(self) -> usize
        ensures { result ≡ 8 * self.number }
    {
        8 * usize::from(self.number)
    }
}
