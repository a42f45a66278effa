// The rule of each operation but calls and returns, in the scope of a procedure, p: its first refusal.
#![tactic(auto, unfolding(model::specs::Refusal::failure, sheet::specs::Layout::owner_at, sheet::specs::Layout::named_of, model::specs::Rules::integer_rule, model::specs::Rules::integers_rule, model::specs::Rules::new_array_rule, model::specs::Rules::new_record_rule, model::specs::Rules::fetch_rule, model::specs::Rules::store_rule, model::specs::Rules::size_rule, model::specs::Rules::get_slot_rule, model::specs::Rules::set_slot_rule), using(crate::proofs::Laws::inner_is, crate::proofs::Laws::inner_integer, crate::proofs::Laws::inner_array, crate::proofs::Laws::slot_is, crate::proofs::Laws::inner_element))]

ghost use Rattle.std.specs.Prelude.{◌≡◌};
ghost use Rattle.model.specs.Refusal.{failure};
ghost use Rattle.model.specs.Rules.{moves, integer_rule, integers_rule, new_array_rule, new_record_rule, fetch_rule, store_rule, size_rule, get_slot_rule, set_slot_rule};
ghost use Rattle.sheet.specs.Layout.{owner_at, named_of};
ghost use Rattle.index.specs.Scope.{inner_as, slot_as_read};

use index::procedures::Scope;
use index::sheets::Sheet;
use index::types::{element_of, is_array, is_generic, is_integer, rights_as};
use model::{Reason, require};
use order::{is_owned, movement_in};
use rights::{has_none_above, has_right, is_within};
use sheet::bytes::byte;
use sheet::fields::{field, inner_of, slot_of};
use sheet::places::type_at;

pub fn integer_rule(s: Sheet, p: Scope, a: u8) -> Result<(), Reason>
    ensures { result ≡ failure (integer_rule (inner_as s.entry.bytes.now p a)) }
{
    require(
        is_integer(s.index, inner_of(s.bytes, p.start, a)),
        Reason::TypeMismatch,
    )
}

pub fn integers_rule(s: Sheet, p: Scope, a: u8, b: u8, c: u8) -> Result<(), Reason>
    ensures { result ≡ failure (integers_rule (inner_as s.entry.bytes.now p a) (inner_as s.entry.bytes.now p b) (inner_as s.entry.bytes.now p c)) }
{
    let x = is_integer(s.index, inner_of(s.bytes, p.start, a));
    let y = is_integer(s.index, inner_of(s.bytes, p.start, b));
    let z = is_integer(s.index, inner_of(s.bytes, p.start, c));
    require(x & y & z, Reason::TypeMismatch)
}

pub fn bind_rule(s: Sheet, p: Scope, a: u8, b: u8) -> Result<(), Reason>
    ensures { result ≡ failure (moves (inner_as s.entry.bytes.now p b) (inner_as s.entry.bytes.now p a)) }
{
    let from = inner_of(s.bytes, p.start, b);
    let to = inner_of(s.bytes, p.start, a);
    movement_in(s, p.name, from, p.name, to)
}

pub fn array_rule(s: Sheet, p: Scope, a: u8, b: u8) -> Result<(), Reason>
    ensures { result ≡ failure (new_array_rule (inner_as s.entry.bytes.now p a) (inner_as s.entry.bytes.now p b)) }
{
    let size = inner_of(s.bytes, p.start, b);
    let to = inner_of(s.bytes, p.start, a);
    require(
        is_integer(s.index, size) & is_array(s.index, to),
        Reason::TypeMismatch,
    )?;
    require(
        is_within(rights_as(s.index, p.name, to), 14),
        Reason::InsufficientRights,
    )
}

pub fn fetch_rule(s: Sheet, p: Scope, a: u8, b: u8, c: u8) -> Result<(), Reason>
    ensures { result ≡ failure (fetch_rule (inner_as s.entry.bytes.now p a) (inner_as s.entry.bytes.now p b) (inner_as s.entry.bytes.now p c)) }
{
    let of = inner_of(s.bytes, p.start, b);
    let at = inner_of(s.bytes, p.start, c);
    require(
        is_array(s.index, of) & is_integer(s.index, at),
        Reason::TypeMismatch,
    )?;
    let held = rights_as(s.index, p.name, of);
    require(has_right(1, held), Reason::InsufficientRights)?;
    let to = inner_of(s.bytes, p.start, a);
    movement_in(s, p.name, element_of(s.index, of), p.name, to)
}

pub fn store_rule(s: Sheet, p: Scope, a: u8, b: u8, c: u8) -> Result<(), Reason>
    ensures { result ≡ failure (store_rule (inner_as s.entry.bytes.now p a) (inner_as s.entry.bytes.now p b) (inner_as s.entry.bytes.now p c)) }
{
    let to = inner_of(s.bytes, p.start, a);
    let at = inner_of(s.bytes, p.start, b);
    require(
        is_array(s.index, to) & is_integer(s.index, at),
        Reason::TypeMismatch,
    )?;
    let held = rights_as(s.index, p.name, to);
    require(has_right(2, held), Reason::InsufficientRights)?;
    let from = inner_of(s.bytes, p.start, c);
    movement_in(s, p.name, from, p.name, element_of(s.index, to))
}

pub fn size_rule(s: Sheet, p: Scope, a: u8, b: u8) -> Result<(), Reason>
    ensures { result ≡ failure (size_rule (inner_as s.entry.bytes.now p a) (inner_as s.entry.bytes.now p b)) }
{
    let of = inner_of(s.bytes, p.start, b);
    require(is_array(s.index, of), Reason::TypeMismatch)?;
    let held = rights_as(s.index, p.name, of);
    require(has_right(3, held), Reason::InsufficientRights)?;
    integer_rule(s, p, a)
}

pub fn record_rule(s: Sheet, p: Scope, a: u8) -> Result<(), Reason>
    ensures { result ≡ failure (new_record_rule (owner_at s.entry.bytes.now p.head) (named_of s.entry.bytes.now (owner_at s.entry.bytes.now p.head)) (inner_as s.entry.bytes.now p a)) }
{
    let owner = field(s.bytes, p.head, 2);
    let to = inner_of(s.bytes, p.start, a);
    require(is_owned(s.index, p.name, owner, to), Reason::TypeMismatch)?;
    let named = byte(s.bytes, type_at(owner), 2);
    require(
        !is_generic(s.index, p.name, to) & has_none_above(named, rights_as(s.index, p.name, to)),
        Reason::InsufficientRights,
    )
}

pub fn get_slot_rule(s: Sheet, p: Scope, a: u8, b: u8, k: u16) -> Result<(), Reason>
    ensures { result ≡ failure (get_slot_rule (owner_at s.entry.bytes.now p.head) (inner_as s.entry.bytes.now p a) (inner_as s.entry.bytes.now p b) (slot_as_read s.entry.bytes.now p (owner_at s.entry.bytes.now p.head) k)) }
{
    let owner = field(s.bytes, p.head, 2);
    let of = inner_of(s.bytes, p.start, b);
    require(is_owned(s.index, p.name, owner, of), Reason::TypeMismatch)?;
    require(
        has_right(0, rights_as(s.index, p.name, of)),
        Reason::InsufficientRights,
    )?;
    let to = inner_of(s.bytes, p.start, a);
    movement_in(s, p.name, slot_of(s.bytes, owner, k), p.name, to)
}

pub fn set_slot_rule(s: Sheet, p: Scope, a: u8, b: u8, k: u16) -> Result<(), Reason>
    ensures { result ≡ failure (set_slot_rule (owner_at s.entry.bytes.now p.head) (inner_as s.entry.bytes.now p a) (inner_as s.entry.bytes.now p b) (slot_as_read s.entry.bytes.now p (owner_at s.entry.bytes.now p.head) k)) }
{
    let owner = field(s.bytes, p.head, 2);
    let to = inner_of(s.bytes, p.start, a);
    require(is_owned(s.index, p.name, owner, to), Reason::TypeMismatch)?;
    require(
        has_right(0, rights_as(s.index, p.name, to)),
        Reason::InsufficientRights,
    )?;
    let from = inner_of(s.bytes, p.start, b);
    movement_in(s, p.name, from, p.name, slot_of(s.bytes, owner, k))
}
