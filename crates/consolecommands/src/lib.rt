// What the consoles of two ends joined share, whatever the ends: the commands on the ends and their lines, numbers that
// belong together in a command, delays and marks, the link of two ends, and the fields that dump prints and set writes.
#![tactic(auto)]

ghost use Rattle.std.specs.Prelude.{◌≡◌, IfSome, IfNone};
ghost use Rattle.consolecommands.specs.Commands.{side_name};

pub mod alone;
pub mod command;
pub mod dump;
pub mod field;
pub mod line;
pub mod link;
pub mod numbers;

// Of two ends joined, one.
#[derive(Clone, Copy, Debug, PartialEq, Eq)]
pub enum Side {
    A,
    B,
}

impl Side {
    // The side of that name.
    pub fn named(word: &[u8]) -> Option<Side>
        ensures named { IfSome result (λ side. word.now ≡ side_name side) }
        ensures other { IfNone result ((side : Side) → ¬ (word.now ≡ side_name side)) }
    {
        match word {
            b"a" => Some(Side::A),
            b"b" => Some(Side::B),
            _ => None,
        }
    }
}
