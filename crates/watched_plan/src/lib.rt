// What each instruction of the watched machine asks for, with every test of kind and right, found by reading alone: v is what it reads of the memory, f the
// variables alone, h the objects alone, p the scope in which it reads its types. Every test reads carried rights.
#![tactic(auto)]

ghost use Rattle.std.specs.Prelude.{◌≡◌, ℕ, ◌+◌, ◌<◌, List, length, get_or, if◌then◌else◌};
ghost use Rattle.model.specs.Qualified.{Qual, rights, element, is_integer};
ghost use Rattle.model.specs.Generic as generic;
ghost use Rattle.model.specs.Program.{Program};
ghost use Rattle.model.specs.Modes.{watched};
ghost use Rattle.model.specs.Machine.{View, integers, one_integer, gives};
ghost use Rattle.model.specs.declared.Halt.TheVariants.{Blank, WrongKind};
ghost use Rattle.model.specs.declared.Operation.TheVariants as Op;
ghost use Rattle.sheet.specs.Layout.{owner_at};
ghost use Rattle.sheet.specs.Meaning.{qual_of, program_of};
ghost use Rattle.index.specs.Types.{named_as};
ghost use Rattle.index.specs.Indexed.{Ready};
ghost use Rattle.index.specs.Scope.{inner_as};
ghost use Rattle.words.specs.Sees.{Sees};
ghost use Rattle.words.specs.Answers.{number_as, given};
ghost use Rattle.binding.specs.Binds.{InScope};
ghost use Rattle.watched_plan.specs.Spots.{pair_as, size_for, FindsIndexed, FindsElement, FindsOpened, FindsSlot, MakesArray, MakesRecord};
ghost use Rattle.watched_plan.specs.Plans.{PlansNumber, PlansMoved, PlansStored, PlansStore};

use binding::{bind_through, bind_word, object_name};
use index::Index;
use index::procedures::Scope;
use index::sheets::Sheet;
use index::types::{element_of, is_array, is_integer, rights_as};
use model::arithmetic::Arithmetic;
use model::{Halt, require};
use order::is_owned;
use rights::{has_none_above, has_right, is_within};
use sheet::bytes::byte;
use sheet::fields::{field, inner_of, slot_of};
use sheet::places::type_at;
use words::{
    Parts, Stored, cell_of, filled, is_array_head, is_integer_word, is_object_word, is_record_head,
    kind_in, low_of, name_of, read, size_of, word_at,
};

// A cell of an object.
#[derive(Clone, Copy)]
struct Spot {
    object: u32,
    cell: u32,
}

// Why a word is no integer: it is blank, or of another kind.
fn no_integer(blank: bool) -> Halt
    ensures { result ≡ (if blank then Blank else WrongKind) }
{
    if blank { Halt::Blank } else { Halt::WrongKind }
}

// The integer in variable x. The tag tells it; why there is none is asked only then.
#[tactic(auto, using(crate::proofs::Laws::one_word, crate::proofs::Laws::no_word))]
pub fn integer_in(f: &[u64], x: u8) -> Result<u32, Halt>
    requires { x < length f.now }
    ensures { (q : ℕ → Qual) (g : Program) (v : View watched) (h : List ℕ) → Sees watched q v f.now h → number_as watched result ≡ one_integer watched g v x }
{
    let w = word_at(f, x);
    if is_integer_word(w) {
        return Ok(low_of(w));
    }
    Err(no_integer(w == 0))
}

// The integers in variables b and c.
#[tactic(auto, using(crate::proofs::Laws::both_words, crate::proofs::Laws::no_words))]
fn two_integers(f: &[u64], b: u8, c: u8) -> Result<(u32, u32), Halt>
    requires { (b < length f.now) × (c < length f.now) }
    ensures { (q : ℕ → Qual) (g : Program) (v : View watched) (h : List ℕ) → Sees watched q v f.now h → pair_as result ≡ integers watched g v b c }
{
    let x = word_at(f, b);
    let y = word_at(f, c);
    if is_integer_word(x) & is_integer_word(y) {
        return Ok((low_of(x), low_of(y)));
    }
    Err(no_integer((x == 0) | (y == 0)))
}

// The input that a take finds may go into variable a.
#[tactic(auto, using(crate::proofs::Laws::integer_in_type, index::proofs::Ready::of_sheet))]
pub fn takes_integer(s: Sheet, p: Scope, a: u8) -> bool
    ensures { result ≡ is_integer (inner_as s.entry.bytes.now p a) }
{
    is_integer(s.index, inner_of(s.bytes, p.start, a))
}

// An integer on its way into variable a.
fn give(s: Sheet, p: Scope, a: u8, n: u32) -> Result<u32, Halt>
    ensures { (v : View watched) → InScope s.entry.bytes.now v p → given watched a result ≡ gives watched (program_of s.entry.bytes.now) v a n }
{
    require(takes_integer(s, p, a), Halt::WrongKind)?;
    Ok(n)
}

#[tactic(auto, unfolding(model::specs::Machine::plan))]
pub fn set_guarded(s: Sheet, p: Scope, a: u8, k: u16) -> Result<u32, Halt>
    ensures { (f h : List ℕ) → PlansNumber s.entry.bytes.now p f h (Op.Set a k) a result }
{
    give(s, p, a, u32::from(k))
}

// What an operation makes of the integers in variables b and c.
pub fn arithmetic_guarded<A: Arithmetic>(
    s: Sheet,
    p: Scope,
    f: &[u64],
    a: u8,
    b: u8,
    c: u8,
) -> Result<u32, Halt>
    requires { (b < length f.now) × (c < length f.now) }
    ensures { (h : List ℕ) → PlansNumber s.entry.bytes.now p f.now h (A.operation a b c) a result }
{
    let (m, n) = two_integers(f, b, c)?;
    give(s, p, a, A::apply(m, n))
}

pub fn bind_guarded(s: Sheet, p: Scope, v: Parts, a: u8, b: u8) -> Result<u64, Halt>
    requires { b < length v.frame.now }
    ensures { PlansMoved s.entry.bytes.now p v.entry.frame.now v.entry.objects.now (Op.Bind a b) a result }
{
    let q = inner_of(s.bytes, p.start, a);
    bind_word(s.index, p.name, v.objects, q, word_at(v.frame, b))
}

// The element of the array of a filled cell, x, by the index in another, y: kinds, right, size.
fn index_in(h: &[u64], x: u64, y: u64, right: u8) -> Result<Spot, Halt>
    requires { right < 32 }
    ensures { FindsIndexed h.now x y right result }
{
    let object = name_of(x);
    let cell = low_of(y);
    let head = read(h, object as usize);
    let kinds = is_object_word(x) & is_array_head(head) & is_integer_word(y);
    require(kinds, Halt::WrongKind)?;
    require(has_right(right, low_of(x)), Halt::MissingRight)?;
    require(cell < size_of(head), Halt::PastEnd)?;
    Ok(Spot { object, cell })
}

// The element of the array in variable b by the index in variable c.
fn element_spot(v: Parts, b: u8, c: u8, right: u8) -> Result<Spot, Halt>
    requires right_bound { right < 32 }
    requires b_in_bounds { (b < length v.frame.now) × (c < length v.frame.now) }
    ensures { FindsElement v.entry.frame.now v.entry.objects.now b c right result }
{
    let Some(x) = cell_of(word_at(v.frame, b)) else {
        return Err(Halt::Blank);
    };
    let Some(y) = cell_of(word_at(v.frame, c)) else {
        return Err(Halt::Blank);
    };
    index_in(v.objects, x, y, right)
}

// The word of a cell of an object.
fn word_in(h: &[u64], at: Spot) -> u64
    ensures { result ≡ get_or h.now (at.object + 1 + at.cell) 0 }
{
    read(h, (at.object as usize) + 1 + (at.cell as usize))
}

// Bound to the element of variable b's type, then to variable a (document 02, S-3).
pub fn fetch_guarded(s: Sheet, p: Scope, v: Parts, a: u8, b: u8, c: u8) -> Result<u64, Halt>
    requires { (b < length v.frame.now) × (c < length v.frame.now) }
    ensures { PlansMoved s.entry.bytes.now p v.entry.frame.now v.entry.objects.now (Op.Fetch a b c) a result }
{
    let at = element_spot(v, b, c, 1)?;
    let w = word_in(v.objects, at);
    let q = inner_of(s.bytes, p.start, a);
    bind_through(s.index, p.name, v.objects, declared_element(s, p, b), q, w)
}

pub fn store_guarded(index: &Index, v: Parts, a: u8, b: u8, c: u8) -> Result<Stored, Halt>
    requires { (a < length v.frame.now) × ((b < length v.frame.now) × (c < length v.frame.now)) }
    ensures { (s : List ℕ) → Ready s index.now → PlansStore s v.entry.frame.now v.entry.objects.now (Op.Store a b c) result }
{
    let at = element_spot(v, a, b, 2)?;
    let head = read(v.objects, at.object as usize);
    let w = word_at(v.frame, c);
    let word = bind_word(index, object_name(head), v.objects, kind_in(head), w)?;
    Ok(Stored {
        object: at.object,
        cell: at.cell,
        word,
    })
}

pub fn size_guarded(s: Sheet, p: Scope, v: Parts, a: u8, b: u8) -> Result<u32, Halt>
    requires { b < length v.frame.now }
    ensures { PlansNumber s.entry.bytes.now p v.entry.frame.now v.entry.objects.now (Op.Size a b) a result }
{
    let x = filled(word_at(v.frame, b))?;
    let head = read(v.objects, name_of(x) as usize);
    require(is_object_word(x) & is_array_head(head), Halt::WrongKind)?;
    require(has_right(3, low_of(x)), Halt::MissingRight)?;
    give(s, p, a, size_of(head))
}

// Slot k of the record of a filled cell, of type t: kind, open, size.
fn open_slot(h: &[u64], x: u64, t: u8, k: u16) -> Result<Spot, Halt>
    ensures { FindsOpened h.now x t k result }
{
    let object = name_of(x);
    let head = read(h, object as usize);
    let kinds = is_object_word(x) & is_record_head(head) & (kind_in(head) == t);
    require(kinds, Halt::WrongKind)?;
    require(has_right(0, low_of(x)), Halt::MissingRight)?;
    let cell = u32::from(k);
    require(cell < size_of(head), Halt::WrongKind)?;
    Ok(Spot { object, cell })
}

// Slot k of the record in variable b.
fn slot_spot(v: Parts, t: u8, b: u8, k: u16) -> Result<Spot, Halt>
    requires { b < length v.frame.now }
    ensures { FindsSlot v.entry.frame.now v.entry.objects.now t b k result }
{
    let x = filled(word_at(v.frame, b))?;
    open_slot(v.objects, x, t, k)
}

pub fn get_guarded(s: Sheet, p: Scope, v: Parts, a: u8, b: u8, k: u16) -> Result<u64, Halt>
    requires { b < length v.frame.now }
    ensures { PlansMoved s.entry.bytes.now p v.entry.frame.now v.entry.objects.now (Op.GetSlot a b k) a result }
{
    let at = slot_spot(v, field(s.bytes, p.head, 2), b, k)?;
    let w = word_in(v.objects, at);
    bind_word(s.index, p.name, v.objects, inner_of(s.bytes, p.start, a), w)
}

pub fn set_slot_guarded(s: Sheet, p: Scope, v: Parts, a: u8, b: u8, k: u16) -> Result<Stored, Halt>
    requires { (a < length v.frame.now) × (b < length v.frame.now) }
    ensures { PlansStored s.entry.bytes.now p v.entry.frame.now v.entry.objects.now (Op.SetSlot a b k) result }
{
    let owner = field(s.bytes, p.head, 2);
    let at = slot_spot(v, owner, a, k)?;
    let q = slot_of(s.bytes, owner, k);
    let word = bind_word(s.index, p.name, v.objects, q, word_at(v.frame, b))?;
    Ok(Stored {
        object: at.object,
        cell: at.cell,
        word,
    })
}

// The size of a new array for variable a, from variable b, before the room for it is tested.
pub fn sized(s: Sheet, p: Scope, f: &[u64], a: u8, b: u8) -> Result<u32, Halt>
    requires { b < length f.now }
    ensures { (g : Program) (v : View watched) (h : List ℕ) → Sees watched (qual_of s.entry.bytes.now) v f.now h → number_as watched result ≡ size_for g v (inner_as s.entry.bytes.now p a) b }
{
    let n = integer_in(f, b)?;
    let q = inner_of(s.bytes, p.start, a);
    require(is_array(s.index, q), Halt::WrongKind)?;
    Ok(n)
}

// The number of the element, ?R unread, and the rights, of the declared type of variable a.
pub fn declared_element(s: Sheet, p: Scope, a: u8) -> u8
    ensures { generic.read (named_as p.name) (qual_of s.entry.bytes.now result) ≡ element (inner_as s.entry.bytes.now p a) }
{
    element_of(s.index, inner_of(s.bytes, p.start, a))
}

#[tactic(auto, using(crate::proofs::Laws::type_in_lem, index::proofs::Ready::of_sheet))]
pub fn declared_rights(s: Sheet, p: Scope, a: u8) -> u32
    ensures { result ≡ rights (inner_as s.entry.bytes.now p a) }
{
    rights_as(s.index, p.name, inner_of(s.bytes, p.start, a))
}

// A new array with all its rights, bound to variable a.
pub fn array_made_as(s: Sheet, p: Scope, a: u8) -> Result<(), Halt>
    ensures { MakesArray (inner_as s.entry.bytes.now p a) result }
{
    let q = inner_of(s.bytes, p.start, a);
    require(is_array(s.index, q), Halt::WrongKind)?;
    let rights = rights_as(s.index, p.name, q);
    require(is_within(rights, 14), Halt::MissingRight)
}

// A new record of the owner's type with all its rights, bound to variable a.
pub fn record_made_as(s: Sheet, p: Scope, a: u8) -> Result<(), Halt>
    ensures { MakesRecord s.entry.bytes.now (inner_as s.entry.bytes.now p a) (owner_at s.entry.bytes.now p.head) result }
{
    let q = inner_of(s.bytes, p.start, a);
    let owner = field(s.bytes, p.head, 2);
    require(is_owned(s.index, p.name, owner, q), Halt::WrongKind)?;
    let named = byte(s.bytes, type_at(owner), 2);
    let rights = rights_as(s.index, p.name, q);
    require(has_none_above(named, rights), Halt::MissingRight)
}
