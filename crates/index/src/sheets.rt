// A sheet with its index, as all that is above takes it.
ghost use Rattle.std.specs.Prelude.{◌≡◌, ◌≤◌};
ghost use Rattle.sheet.specs.Layout.{rights_size, edition_in, quals_of, procedures_of};
ghost use Rattle.index.specs.Indexed.{Indexed, Ready, Ready-prop};

use crate::Index;
use sheet::edition::Encoded;

// Of any bytes.
#[derive(Clone, Copy)]
pub struct AnySheet<'a> {
    pub bytes: &'a [u8],
    pub rights: u8,
    pub index: &'a Index,
    ghost by_edition: { rights ≡ rights_size (edition_in bytes.now) },
    ghost few: { (2 ≤ rights) × (rights ≤ 4) },
    ghost indexed: { Indexed bytes.now index.now },
}

// Of bytes that have no more types and procedures than there is room for: all that stands above well-formedness leans on this alone.
#[derive(Clone, Copy)]
pub struct Sheet<'a> {
    pub bytes: &'a [u8],
    pub rights: u8,
    pub index: &'a Index,
    ghost by_edition: { rights ≡ rights_size (edition_in bytes.now) },
    ghost few: { (2 ≤ rights) × (rights ≤ 4) },
    ghost ready: { Ready bytes.now index.now } by { Ready-prop bytes.now index.now },
}

impl<'a> AnySheet<'a> {
    pub fn new(bytes: &'a [u8], index: &'a Index) -> Self
        requires { Indexed bytes.now index.now }
        ensures { (result.bytes ≡ bytes.entry) × (result.index ≡ index.entry) }
    {
        let e = Encoded::new(bytes);
        AnySheet {
            bytes,
            rights: e.rights,
            index,
        }
    }

    pub fn encoded(self) -> Encoded<'a>
        ensures { result.bytes ≡ self.entry.bytes }
    {
        Encoded {
            bytes: self.bytes,
            rights: self.rights,
        }
    }

    // The same sheet, where its header keeps to its limits.
    pub fn bounded(self) -> Sheet<'a>
        requires { (quals_of self.bytes.now ≤ 64) × (procedures_of self.bytes.now ≤ 64) }
        ensures { (result.bytes ≡ self.entry.bytes) × (result.index ≡ self.entry.index) }
    {
        Sheet {
            bytes: self.bytes,
            rights: self.rights,
            index: self.index,
        }
    }
}

impl<'a> Sheet<'a> {
    pub fn encoded(self) -> Encoded<'a>
        ensures { result.bytes ≡ self.entry.bytes }
    {
        Encoded {
            bytes: self.bytes,
            rights: self.rights,
        }
    }
}
