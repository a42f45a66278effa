// Binding a value to a declared type, as the watched machine does it: its kind is tested (18), then the rights that it carries (19), and it goes on with
// the declared rights. h is the objects' part of the memory.
#![tactic(auto)]

ghost use Rattle.std.specs.Prelude.{◌≡◌, List, true, ℕ, Ok};
ghost use Rattle.model.specs.Qualified.{declared};
ghost use Rattle.model.specs.Modes.{fits};
ghost use Rattle.index.specs.Types.{qual_in, type_in, named_as, word_as};
ghost use Rattle.words.specs.Word.{low, settled_base};
ghost use Rattle.binding.specs.Binds.{kind_in, OwnRecord, BindsFilled, BindsWord, BindsTwice, Raises, BindsActual, BindsResult};

use index::Index;
use index::procedures::{Scope, instance_name};
use index::sheets::Sheet;
use index::types::{element_in, rights_as, rights_in, shape_in, type_word, type_word_as};
use model::{Halt, require};
use order::{elements_agree, is_amplified};
use rights::{has_right, is_within};
use sheet::fields::{field, inner_of, need_of};
use words::{
    cell_of, filled, is_array_head, is_integer_word, is_object_word, is_record_head, kind_in,
    low_of, name_of, object_word, read, settled_base,
};

// The name of what ?R stands for in the element of an array, by its head.
pub fn object_name(head: u64) -> u64
    ensures { named_as result ≡ declared (settled_base head) (low head) }
{
    instance_name(settled_base(head), low_of(head))
}

// The object of a head is of QT q, whose word is t where ?R is read as a name has it: of its base and, for an array, with the elements that a movement into q
// would ask for (document 02, S-3).
fn object_fits(index: &Index, name: u64, q: u8, t: u64, head: u64) -> bool
    requires { t ≡ word_as index.now name q }
    ensures { result ≡ fits (type_in index.now name q) (kind_in (qual_in index.now) head) }
{
    let shape = shape_in(t);
    let kind = kind_in(head);
    if is_array_head(head) {
        let stores = has_right(2, rights_in(t));
        let e = element_in(t, q);
        return (shape == 1) & elements_agree(index, stores, object_name(head), kind, name, e);
    }
    is_record_head(head) & (2 <= kind) & (shape % 256 == u16::from(kind))
}

// The word of a filled cell, bound to QT q.
pub fn bind_filled(index: &Index, name: u64, h: &[u64], q: u8, w: u64) -> Result<u64, Halt>
    ensures { BindsFilled (qual_in index.now) h.now (type_in index.now name q) w result }
{
    let t = type_word_as(index, name, q);
    if is_integer_word(w) {
        require(shape_in(t) == 0, Halt::WrongKind)?;
        return Ok(w);
    }
    let fits = object_fits(index, name, q, t, read(h, name_of(w) as usize));
    require(fits, Halt::WrongKind)?;
    let rights = rights_in(t);
    let held = low_of(w);
    require(is_within(rights, held), Halt::MissingRight)?;
    Ok(object_word(name_of(w), rights))
}

// An integer, bound to an integer's QT: a test by itself, so that it is inlined where the rest of a binding is not.
fn is_integer_bound(index: &Index, q: u8, w: u64) -> bool
    ensures { (name : ℕ) (h : List ℕ) → result ≡ true → BindsFilled (qual_in index.now) h (type_in index.now name q) w (Ok w) }
{
    is_integer_word(w) & (shape_in(type_word(index, q)) == 0)
}

// The word of a cell, bound to QT q; a blank one is 13.
pub fn bind_word(index: &Index, name: u64, h: &[u64], q: u8, w: u64) -> Result<u64, Halt>
    ensures { BindsWord (qual_in index.now) h.now (type_in index.now name q) w result }
{
    let Some(x) = cell_of(w) else {
        return Err(Halt::Blank);
    };
    if is_integer_bound(index, q, x) {
        return Ok(x);
    }
    bind_filled(index, name, h, q, x)
}

// The word of a cell, bound to QT e and then to QT q, which changes nothing where they are one.
pub fn bind_through(index: &Index, name: u64, h: &[u64], e: u8, q: u8, w: u64) -> Result<u64, Halt>
    ensures { BindsTwice (qual_in index.now) h.now (type_in index.now name e) (type_in index.now name q) w result }
{
    let x = bind_word(index, name, h, e, w)?;
    if e == q {
        return Ok(x);
    }
    bind_word(index, name, h, q, x)
}

// A filled cell holds a record of the owner's type; owner 0 is none.
fn is_record_of(h: &[u64], owner: u8, w: u64) -> bool
    ensures { OwnRecord h.now owner w result }
{
    let head = read(h, name_of(w) as usize);
    is_object_word(w) & is_record_head(head) & (2 <= owner) & (kind_in(head) == owner)
}

// The word of a filled cell, raised to QT inner: a record of the owner's type gets inner's rights, another value is bound to inner. ?R is never amplified.
pub fn raise_filled(
    index: &Index,
    name: u64,
    h: &[u64],
    owner: u8,
    inner: u8,
    w: u64,
) -> Result<u64, Halt>
    ensures { Raises (qual_in index.now) h.now owner (qual_in index.now inner) (type_in index.now name inner) w result }
{
    if is_record_of(h, owner, w) & is_amplified(index, owner, inner) {
        return Ok(object_word(name_of(w), rights_as(index, name, inner)));
    }
    bind_filled(index, name, h, inner, w)
}

// Actual j of a call of the procedure whose frame has scope c: bound to need, then raised to inner, which changes nothing where inner is need.
pub fn actual_word(s: Sheet, h: &[u64], c: Scope, j: u8, w: u64) -> Result<u64, Halt>
    ensures { BindsActual s.entry.bytes.now h.now c j w result }
{
    let need = need_of(s.bytes, c.start, j);
    let inner = inner_of(s.bytes, c.start, j);
    let x = bind_word(s.index, c.name, h, need, w)?;
    if need == inner {
        return Ok(x);
    }
    raise_filled(s.index, c.name, h, field(s.bytes, c.head, 2), inner, x)
}

// The value that a return from the frame of scope c hands over, bound to the result; 18 where there is none.
pub fn result_word(s: Sheet, h: &[u64], c: Scope, w: u64) -> Result<u64, Halt>
    ensures { BindsResult s.entry.bytes.now h.now c w result }
{
    let x = filled(w)?;
    let result = field(s.bytes, c.head, 5);
    require(result != 255, Halt::WrongKind)?;
    if is_integer_bound(s.index, result, x) {
        return Ok(x);
    }
    bind_filled(s.index, c.name, h, result, x)
}
