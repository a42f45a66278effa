// A reader of records: the sheet and an offset in it, over the covered functions of `sheet::records`. Its methods only take it apart and put it together.
// A caller that has the sheet as a plain slice takes the last two functions.
#![tactic(auto)]

ghost use Rattle.std.specs.Prelude.{◌≡◌};
ghost use Rattle.sheet.specs.Reader.{record_bytes, past_at, left_at};

use sheet::records::{left_at, past_at, record_at};

#[derive(Clone, Copy)]
pub struct Reader<'a> {
    pub sheet: &'a [u8],
    pub at: usize,
}

impl<'a> Reader<'a> {
    pub fn new(sheet: &'a [u8], at: usize) -> Self
        ensures { (result.sheet ≡ sheet.entry) × (result.at ≡ at) }
    {
        Reader { sheet, at }
    }

    // The record at the offset, as part of the sheet.
    pub fn current(self) -> &'a [u8]
        ensures { result.now ≡ record_bytes self.entry.sheet.now self.entry.at }
    {
        record_at(self.sheet, self.at)
    }

    // The reader, moved past the record at its offset.
    pub fn past(self) -> Self
        ensures { (result.sheet ≡ self.entry.sheet) × (result.at ≡ past_at self.entry.sheet.now self.entry.at) }
    {
        Reader {
            at: past_at(self.sheet, self.at),
            ..self
        }
    }

    // How many bytes are left from the offset on.
    pub fn left(self) -> usize
        ensures { result ≡ left_at self.entry.sheet.now self.entry.at }
    {
        left_at(self.sheet, self.at)
    }
}

// The sheet's first record.
pub fn first_record(s: &[u8]) -> &[u8]
    ensures { result.now ≡ record_bytes s.now 0 }
{
    Reader::new(s, 0).current()
}

// How many bytes are left after the record at a place.
pub fn left_after(s: &[u8], at: usize) -> usize
    ensures { result ≡ left_at s.now (past_at s.now at) }
{
    Reader::new(s, at).past().left()
}
