// What can be wrong with a line.
ghost use Rattle.std.specs.Prelude.{◌≤◌, length};

#[derive(Clone, Copy, Debug, PartialEq, Eq)]
pub enum Fault {
    Command,
    Call,
    Field,
    Missing,
    Extra,
    Digits,
    TooLarge,
    Count,
    TooLong,
}

impl Fault {
    // What is told of it.
    pub fn reason(self) -> &'static [u8]
        ensures { length result.now ≤ 24 }
    {
        match self {
            Fault::Command => b"no such command or end",
            Fault::Call => b"no such call",
            Fault::Field => b"no such field",
            Fault::Missing => b"a word is missing",
            Fault::Extra => b"a word too many",
            Fault::Digits => b"not a number",
            Fault::TooLarge => b"too large a number",
            Fault::Count => b"not that many numbers",
            Fault::TooLong => b"too long a line",
        }
    }
}
