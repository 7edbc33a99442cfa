// An end as a record in bytes: laid, read and refused, as the definitions of `recordspec` say. docs/RECORD.md has the
// offsets.
#![tactic(auto)]

mod limits;
pub mod reading;
pub mod refusing;
pub mod writing;

ghost use Rattle.std.specs.Prelude.{◌≤◌};
ghost use Rattle.recordspec.specs.Record.{size_one};

// How long a record is.
pub const SIZE: usize = 101;

// A version of the record: how long its records are, and its number. None is shorter than the first one.
#[derive(Clone, Copy)]
pub struct Version {
    pub size: usize,
    pub number: u8,
    ghost long: { size_one ≤ size },
}

// The version of now, and the ones of before.
pub const CURRENT: Version = Version {
    size: SIZE,
    number: 3,
};

pub const ONE: Version = Version {
    size: 92,
    number: 1,
};

pub const TWO: Version = Version {
    size: 100,
    number: 2,
};
