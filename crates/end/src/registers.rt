// The ten registers: which one a number names, decided by cases and ranges in one place.
ghost use Rattle.end.specs.Names.{Names};

// 3.2308; 3.2309 to 3.2312, counted from 0; 3.2313; and 3.2314 to 3.2317, counted from 0.
#[derive(Clone, Copy, Debug, PartialEq, Eq)]
pub enum Register {
    Control,
    Message(usize),
    Status,
    Received(usize),
}

impl Register {
    // The register that a number names, none for a number outside.
    pub fn named(number: u16) -> Option<Register>
        ensures { Names number result }
    {
        match number {
            2308 => Some(Register::Control),
            2309..=2312 => Some(Register::Message(usize::from(number - 2309))),
            2313 => Some(Register::Status),
            2314..=2317 => Some(Register::Received(usize::from(number - 2314))),
            _ => None,
        }
    }
}
