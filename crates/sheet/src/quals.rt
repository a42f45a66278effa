// The fields of a QT.
ghost use Rattle.std.specs.Prelude.{◌≡◌, ◌+◌, ◌≤◌, length};
ghost use Rattle.sheet.specs.Quals.{qual_fields_at};

use crate::bytes::{byte, whole, word_whole};
use crate::edition::{Encoded, rights_at};

#[derive(Clone, Copy)]
pub struct QualFields {
    pub base: u8,
    pub rights: u32,
    pub element: u8,
}

// Those of a QT that stands whole, read with no test.
pub fn qual_whole(e: Encoded, at: usize) -> QualFields
    requires { at + (4 + e.rights) ≤ length e.bytes.now }
    ensures { result ≡ qual_fields_at e.entry.bytes.now at }
{
    let s = e.bytes;
    let base = s[at + 2];
    let low = u32::from(word_whole(s, at, 3));
    if e.rights == 4 {
        return QualFields {
            base,
            rights: low + 65536 * u32::from(word_whole(s, at, 5)),
            element: s[at + 7],
        };
    }
    QualFields {
        base,
        rights: low,
        element: s[at + 5],
    }
}

// Those of any QT; past the end they are 0.
pub fn qual_fields(e: Encoded, at: usize) -> QualFields
    ensures { result ≡ qual_fields_at e.entry.bytes.now at }
{
    let n = e.rights as usize;
    if whole(e.bytes, at, 4 + n) {
        return qual_whole(e, at);
    }
    QualFields {
        base: byte(e.bytes, at, 2),
        rights: rights_at(e.bytes, e.rights, at),
        element: byte(e.bytes, at, 3 + n),
    }
}
