// What the edition of a sheet decides (document 02, S-5): how many bytes rights take.
ghost use Rattle.std.specs.Prelude.{◌≡◌, ◌≤◌};
ghost use Rattle.sheet.specs.Layout.{rights_size, edition_in, rights_at};

use crate::bytes::{byte, marked, word};

// The bytes that rights take in a sheet: four where an HD of edition 2 stands at its start, else two.
pub fn rights_size(s: &[u8]) -> u8
    ensures value { result ≡ rights_size (edition_in s.now) }
    ensures upper_bound { result ≤ 4 }
{
    if byte(s, 0, 2) == 2 {
        if marked(s, 0, b'H', b'D') {
            return 4;
        }
    }
    2
}

// The bytes of a sheet, with the number of bytes that rights take in it.
#[derive(Clone, Copy)]
pub struct Encoded<'a> {
    pub bytes: &'a [u8],
    pub rights: u8,
    ghost by_edition: { rights ≡ rights_size (edition_in bytes.now) },
    ghost few: { (2 ≤ rights) × (rights ≤ 4) },
}

impl<'a> Encoded<'a> {
    pub fn new(bytes: &'a [u8]) -> Self
        ensures { result.bytes ≡ bytes.entry }
    {
        let rights = rights_size(bytes);
        Encoded { bytes, rights }
    }
}

// The rights in the QT or the GN at a place, after its base, by the bytes that they take.
pub fn rights_at(s: &[u8], size: u8, at: usize) -> u32
    ensures { size ≡ rights_size (edition_in s.now) → result ≡ rights_at s.now at }
{
    let low = u32::from(word(s, at, 3));
    if size == 4 {
        return low + 65536 * u32::from(word(s, at, 5));
    }
    low
}
