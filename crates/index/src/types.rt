// The qualified types of an index by their numbers. A number from 64 on names none and reads as the integer type, so that no caller owes a bound.
// A name is the word of what ?R is read as.
ghost use Rattle.std.specs.Prelude.{◌≡◌, cond, eqb, leb, ◌<◌, ◌≤◌};
ghost use Rattle.model.specs.Qualified.{base, rights, is_integer, is_array, is_generic};
ghost use Rattle.index.specs.Types.{word_in, named_as, name_type, read_word, word_as, shape_of, rights_of, element_of, uses_of, element_below, qual_in, type_in, ElementIn};

use crate::Index;

// The word of QT j.
pub fn type_word(index: &Index, j: u8) -> u64
    ensures { result ≡ word_in index.now j }
{
    if j < 64 {
        return index[j as usize];
    }
    0
}

// What a name has, as the word of a type.
fn name_type(name: u64) -> u64
    ensures { result ≡ name_type name }
{
    let shape = 2 + name / 4294967296 % 32 + 256 * (name / 137438953472 % 2);
    name % 4294967296 + 4294967296 * shape
}

// The base and the rights that a name has.
pub fn name_base(name: u64) -> u8
    ensures value { result ≡ base (named_as name) }
    ensures lower_bound { (2 ≤ result) × (result < 34) }
{
    (2 + name / 4294967296 % 32) as u8
}

pub fn name_rights(name: u64) -> u32
    ensures { result ≡ rights (named_as name) }
{
    (name % 4294967296) as u32
}

// A word where ?R is read as a name has it.
pub fn word_read(name: u64, w: u64) -> u64
    ensures { result ≡ read_word name w }
{
    if is_generic_type(w) {
        return name_type(name);
    }
    w
}

// The word of QT j read so.
pub fn type_word_as(index: &Index, name: u64, j: u8) -> u64
    ensures { result ≡ word_as index.now name j }
{
    word_read(name, type_word(index, j))
}

// The shape in such a word, 256 more than its base for ?R. Two of them compare as numbers, also a base with ?R of that base.
pub fn shape_in(w: u64) -> u16
    ensures { result ≡ shape_of w }
{
    (w / 4294967296 % 512) as u16
}

// Whether the type of such a word is an integer, an array, ?R.
pub fn is_integer_type(w: u64) -> bool
    ensures { result ≡ eqb (shape_of w) 0 }
{
    shape_in(w) == 0
}

pub fn is_array_type(w: u64) -> bool
    ensures { result ≡ eqb (shape_of w) 1 }
{
    shape_in(w) == 1
}

pub fn is_generic_type(w: u64) -> bool
    ensures { result ≡ leb 256 (shape_of w) }
{
    256 <= shape_in(w)
}

// The rights in such a word.
pub fn rights_in(w: u64) -> u32
    ensures { result ≡ rights_of w }
{
    (w % 4294967296) as u32
}

// The number of the element in such a word, as it stands.
pub fn element_number(w: u64) -> u8
    ensures { result ≡ element_of w }
{
    (w / 2199023255552 % 256) as u8
}

// The same where it is below j; else 255, which names no QT.
pub fn element_in(w: u64, j: u8) -> u8
    ensures { result ≡ element_below w j }
{
    let e = element_number(w);
    if e < j {
        return e;
    }
    255
}

// The rights of QT j as its record has it, ?R unread, and where ?R is read as a name has it.
pub fn rights_by(w: u64) -> u32
    ensures { result ≡ cond (eqb (shape_of w) 0) 0 (rights_of w) }
{
    if is_integer_type(w) {
        return 0;
    }
    rights_in(w)
}

pub fn rights_of(index: &Index, j: u8) -> u32
    ensures { result ≡ rights (qual_in index.now j) }
{
    rights_by(type_word(index, j))
}

pub fn rights_as(index: &Index, name: u64, j: u8) -> u32
    ensures { result ≡ rights (type_in index.now name j) }
{
    rights_by(type_word_as(index, name, j))
}

// The number of an array's element: below its own, or 255. ?R is not read for it.
pub fn element_of(index: &Index, j: u8) -> u8
    ensures { ElementIn index.now j result }
{
    let w = type_word(index, j);
    if is_array_type(w) {
        return element_in(w, j);
    }
    255
}

// Whether QT j uses ?R, itself or as an element.
pub fn uses_name(index: &Index, j: u8) -> bool
    ensures { result ≡ uses_of (word_in index.now j) }
{
    type_word(index, j) / 562949953421312 % 2 == 1
}

// An integer, an array: as ?R, however it is read, is neither, it is not read for these.
pub fn is_integer(index: &Index, j: u8) -> bool
    ensures { result ≡ is_integer (qual_in index.now j) }
{
    is_integer_type(type_word(index, j))
}

pub fn is_array(index: &Index, j: u8) -> bool
    ensures { result ≡ is_array (qual_in index.now j) }
{
    is_array_type(type_word(index, j))
}

pub fn is_generic(index: &Index, name: u64, j: u8) -> bool
    ensures { result ≡ is_generic (type_in index.now name j) }
{
    is_generic_type(type_word_as(index, name, j))
}
