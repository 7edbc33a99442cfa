// Answer 11: a wrong length, an unknown version or a value out of range.
ghost use Rattle.std.specs.Prelude.{◌≡◌, ◌≤◌, length};
ghost use Rattle.recordspec.specs.Record.{size_two, wrong_head, exceeds, refused, refused_before};

use crate::limits::limits;
use crate::reading::presence_of;
use crate::{CURRENT, SIZE, Version};

// A record that is not of this size and version, or has a value out of range. Of presence no byte alone says so.
pub fn refused(area: &[u8]) -> bool
    ensures { result ≡ refused area.now }
{
    if wrong_head(CURRENT, area) {
        return true;
    }
    let Some(record) = area.as_array::<SIZE>() else {
        return true;
    };
    let left = presence_of(record);
    let above = exceeds(&record[3..], &limits());
    (left > receiver::LASTING) | above
}

// The same of a version of before, which has a bool behind the collection and ends with or before the counts: two runs
// of bytes, and no presence to read.
pub fn refused_before(version: Version, area: &[u8]) -> bool
    requires { version.size ≤ size_two }
    ensures { result ≡ refused_before version.size version.number area.now }
{
    if wrong_head(version, area) {
        return true;
    }
    let limits = limits();
    let flag = area[71];
    let front = exceeds(&area[3..71], &limits[..68]);
    let back = exceeds(&area[72..], &limits[68..version.size - 4]);
    (flag > 1) | (front | back)
}

// The length, as it is and as it is said, and the version.
fn wrong_head(version: Version, area: &[u8]) -> bool
    ensures { result ≡ wrong_head version.size version.number area.now }
{
    if area.len() != version.size {
        return true;
    }
    let said = u16::from_be_bytes([area[0], area[1]]);
    if usize::from(said) != version.size {
        return true;
    }
    area[2] != version.number
}

// Some byte is above the limit for its place. All are looked at: with no way out of the loop, many are compared at
// once.
fn exceeds(bytes: &[u8], limits: &[u8]) -> bool
    requires { length bytes.now ≡ length limits.now }
    ensures { result ≡ exceeds bytes.now limits.now }
{
    let mut found = false;
    for (byte, limit) in bytes.iter().zip(limits) {
        found |= byte > limit;
    }
    found
}
