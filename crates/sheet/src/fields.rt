// Fields of records whose place is small, so that one test of the length is enough to read one; past the end it is 0.
ghost use Rattle.std.specs.Prelude.{◌≡◌};
ghost use Rattle.sheet.specs.Bytes.{byte_at};
ghost use Rattle.sheet.specs.Layout.{inner_at, need_at, slot_of};

use crate::bytes::byte;
use crate::places::type_at;

// Byte k of the record at a place.
pub fn field(s: &[u8], at: u32, k: u16) -> u8
    ensures { result ≡ byte_at s.now at k }
{
    let i = (at as usize) + (k as usize);
    if i < s.len() {
        return s[i];
    }
    0
}

// The QT numbers of the VR of variable x of a procedure whose VRs start at a place: inner and need.
pub fn inner_of(s: &[u8], start: u32, x: u8) -> u8
    ensures { result ≡ inner_at s.now start x }
{
    field(s, start, 2 + 4 * (x as u16))
}

pub fn need_of(s: &[u8], start: u32, x: u8) -> u8
    ensures { result ≡ need_at s.now start x }
{
    field(s, start, 3 + 4 * (x as u16))
}

// The QT number that declares slot k of a type.
pub fn slot_of(s: &[u8], t: u8, k: u16) -> u8
    ensures { result ≡ slot_of s.now t k }
{
    byte(s, type_at(t), 4 + (k as usize))
}
