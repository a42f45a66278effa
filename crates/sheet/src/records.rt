// What a reader of records asks of the sheet at a place: the bytes of one record, as part of the sheet, where it ends, and what is left.
ghost use Rattle.std.specs.Prelude.{◌≡◌};
ghost use Rattle.sheet.specs.Reader.{size_at, record_bytes, past_at, left_at};

use crate::bytes::{marked, whole};
use crate::edition::rights_size;

// The size of the record whose mark stands at a place, 0 where no known mark does.
fn size_at(s: &[u8], at: usize) -> usize
    ensures { result ≡ size_at s.now at }
{
    if marked(s, at, b'H', b'D') {
        return 6;
    }
    if marked(s, at, b'T', b'Y') {
        return 12;
    }
    if marked(s, at, b'Q', b'T') {
        return 4 + (rights_size(s) as usize);
    }
    if marked(s, at, b'P', b'R') {
        return 8;
    }
    if marked(s, at, b'G', b'N') {
        return 3 + (rights_size(s) as usize);
    }
    if marked(s, at, b'V', b'R') {
        return 4;
    }
    if marked(s, at, b'I', b'N') {
        return 8;
    }
    0
}

// The bytes of the record at a place; none where no record with a known mark stands whole there.
pub fn record_at(s: &[u8], at: usize) -> &[u8]
    ensures { result.now ≡ record_bytes s.now at }
{
    let n = size_at(s, at);
    if whole(s, at, n) {
        let end = at + n;
        return &s[at..end];
    }
    &s[0..0]
}

// Where the record at a place ends; the place itself where no record stands whole there.
pub fn past_at(s: &[u8], at: usize) -> usize
    ensures { result ≡ past_at s.now at }
{
    at + record_at(s, at).len()
}

// How many bytes are left from a place on.
pub fn left_at(s: &[u8], at: usize) -> usize
    ensures { result ≡ left_at s.now at }
{
    if at <= s.len() { s.len() - at } else { 0 }
}
