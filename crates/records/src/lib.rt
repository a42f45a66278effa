// One record of each kind: whole, under its mark, within its limits.
#![tactic(auto)]

ghost use Rattle.std.specs.Prelude.{◌≡◌, ℕ, ◌+◌, ◌≤◌, ltb, length};
ghost use Rattle.model.specs.Refusal.{verdict};
ghost use Rattle.sheet.specs.Bytes.{byte_at, mark};
ghost use Rattle.sheet.specs.Layout.{qual_at};
ghost use Rattle.limits.specs.Scale.{all_below, below_or_none, type_scale};
ghost use Rattle.form.specs.WellFormed.{record_tests, header_tests, type_tests, qual_tests, head_tests, bound_tests, variable_tests, instruction_tests_at};

use limits::{
    Limits, below_or_none, bound_scale, header_scale, instruction_scale, procedure_scale,
    qual_scale, variable_scale,
};
use model::{Reason, Verdict, require};
use reader::first_record;
use sheet::bytes::{byte, marked, whole, word};
use sheet::edition::{Encoded, rights_at};
use sheet::fetch::fields_whole;
use sheet::places::{is_bounded, qual_at, type_at, variable_at};
use sheet::quals::qual_whole;

// A record of a size, under its mark, within its limits: the first of these that it is not is its refusal.
#[tactic(auto, unfolding(model::specs::Refusal::verdict, model::specs::Refusal::refuse, model::specs::Refusal::failure, form::specs::WellFormed::record_tests))]
fn record(s: &[u8], at: usize, size: usize, m: u8, n: u8, scale: bool) -> Verdict
    ensures { result ≡ verdict (record_tests s.now at size (mark m n) scale) }
{
    require(whole(s, at, size), Reason::Torn.at(at))?;
    require(marked(s, at, m, n), Reason::StrayMark.at(at))?;
    require(scale, Reason::OffScale.at(at))
}

// The same of one that stands whole. Its mark is read without asking again where the sheet ends.
#[tactic(auto, unfolding(model::specs::Refusal::verdict, model::specs::Refusal::refuse, model::specs::Refusal::failure, form::specs::WellFormed::record_tests), using(form::proofs::Laws::whole_here, form::proofs::Laws::mark_here))]
fn whole_record(s: &[u8], at: usize, m: u8, n: u8, scale: bool) -> Verdict
    requires { at + 2 ≤ length s.now }
    ensures { (size : ℕ) → at + size ≤ length s.now → result ≡ verdict (record_tests s.now at size (mark m n) scale) }
{
    require((s[at] == m) & (s[at + 1] == n), Reason::StrayMark.at(at))?;
    require(scale, Reason::OffScale.at(at))
}

// The HD. Where it stands whole under its mark, its fields are read from the part of the sheet that a reader gives.
#[tactic(auto, unfolding(model::specs::Refusal::verdict, model::specs::Refusal::refuse, model::specs::Refusal::failure, form::specs::WellFormed::header_tests, sheet::specs::Layout::edition_of, sheet::specs::Layout::types_of, sheet::specs::Layout::quals_of, sheet::specs::Layout::procedures_of), using(form::proofs::Laws::header_field))]
pub fn header(s: &[u8]) -> Verdict
    ensures { result ≡ verdict (header_tests s.now) }
{
    require(whole(s, 0, 6), Reason::Torn.at(0))?;
    require(marked(s, 0, b'H', b'D'), Reason::StrayMark.at(0))?;
    let hd = first_record(s);
    let edition = byte(hd, 0, 2);
    require((edition == 1) | (edition == 2), Reason::BadEdition.at(0))?;
    let scale = header_scale(byte(hd, 0, 3), byte(hd, 0, 4), byte(hd, 0, 5));
    require(scale, Reason::OffScale.at(0))
}

// The eight slot bytes of the TY at a place with n slots.
#[tactic(auto, using(crate::proofs::Slots::all_more, crate::proofs::Slots::all_fails))]
fn slots_scale(s: &[u8], q: u8, at: usize, n: u8) -> bool
    ensures { result ≡ all_below 8 (λ k. below_or_none q (ltb k n) (byte_at s.now at (4 + k))) }
{
    for k in 0..8 {
        if !below_or_none(q, k < n, byte(s, at, 4 + usize::from(k))) {
            return false;
        }
    }
    true
}

#[tactic(auto, unfolding(limits::specs::Scale::type_scale, model::specs::Refusal::all_from))]
fn type_scale(s: &[u8], most: u8, q: u8, at: usize) -> bool
    ensures { result ≡ type_scale most q (byte_at s.now at 2) (byte_at s.now at 3) (λ k. byte_at s.now at (4 + k)) }
{
    let n = byte(s, at, 3);
    (byte(s, at, 2) <= most) & (n <= 8) & slots_scale(s, q, at, n)
}

// TY number i, of type 2 + i.
#[tactic(auto, unfolding(form::specs::WellFormed::type_tests, sheet::specs::Layout::type_at, sheet::specs::Layout::quals_of, sheet::specs::Layout::named_of, sheet::specs::Layout::slots_of, sheet::specs::Layout::slot_of))]
pub fn type_record(e: Encoded, i: u8) -> Verdict
    ensures { result ≡ verdict (type_tests e.entry.bytes.now i) }
{
    let s = e.bytes;
    let at = 6 + 12 * usize::from(i);
    let scale = type_scale(s, 8 * e.rights - 1, byte(s, 0, 4), at);
    record(s, at, 12, b'T', b'Y', scale)
}

// QT number j, which stands whole at a place. It is read without asking again where the sheet ends.
#[tactic(auto, unfolding(form::specs::WellFormed::qual_tests, sheet::specs::Layout::types_of, sheet::specs::Layout::named_of, sheet::specs::Layout::base_of, sheet::specs::Layout::rights_field, sheet::specs::Layout::element_field))]
fn whole_qual(e: Encoded, j: u8, at: usize) -> Verdict
    requires at_value { at ≡ qual_at e.bytes.now j }
    requires size_in_bounds { at + (4 + e.rights) ≤ length e.bytes.now }
    ensures { result ≡ verdict (qual_tests e.entry.bytes.now j) }
{
    let s = e.bytes;
    let q = qual_whole(e, at);
    let named = byte(s, type_at(q.base), 2);
    let scale = qual_scale(byte(s, 0, 3), named, j, q.base, q.rights, q.element);
    whole_record(s, at, b'Q', b'T', scale)
}

// QT number j.
#[tactic(auto, unfolding(model::specs::Refusal::verdict, model::specs::Refusal::refuse, model::specs::Refusal::failure, form::specs::WellFormed::record_tests, form::specs::WellFormed::qual_tests, sheet::specs::Bytes::whole_at))]
pub fn qual_record(e: Encoded, j: u8) -> Verdict
    ensures { result ≡ verdict (qual_tests e.entry.bytes.now j) }
{
    let at = qual_at(e, j);
    require(
        whole(e.bytes, at, 4 + usize::from(e.rights)),
        Reason::Torn.at(at),
    )?;
    whole_qual(e, j, at)
}

// PR number p, at a place.
#[tactic(auto, unfolding(form::specs::WellFormed::head_tests, sheet::specs::Layout::types_of, sheet::specs::Layout::quals_of, sheet::specs::Layout::owner_at, sheet::specs::Layout::formals_at, sheet::specs::Layout::variables_field, sheet::specs::Layout::result_at, sheet::specs::Layout::instructions_at))]
pub fn head_record(s: &[u8], p: usize, pr: u32) -> Verdict
    ensures { result ≡ verdict (head_tests s.now p pr) }
{
    let at = pr as usize;
    let t = byte(s, 0, 3);
    let q = byte(s, 0, 4);
    let owner = byte(s, at, 2);
    let f = byte(s, at, 3);
    let v = byte(s, at, 4);
    let result = byte(s, at, 5);
    let scale = procedure_scale(t, q, p, owner, f, v, result, word(s, at, 6));
    record(s, at, 8, b'P', b'R', scale)
}

// The GN of procedure p, at a place, where one is due.
#[tactic(auto, unfolding(model::specs::Refusal::verdict, form::specs::WellFormed::bound_tests, sheet::specs::Layout::types_of, sheet::specs::Layout::named_of, sheet::specs::Layout::bound_base_at, sheet::specs::Layout::least_at))]
pub fn bound_record(s: &[u8], p: usize, pr: u32) -> Verdict
    ensures { result ≡ verdict (bound_tests s.now p pr) }
{
    if is_bounded(s, p, pr) {
        let e = Encoded::new(s);
        let at = (pr as usize) + 8;
        let base = byte(s, at, 2);
        let named = byte(s, type_at(base), 2);
        let scale = bound_scale(byte(s, 0, 3), named, base, rights_at(s, e.rights, at));
        return record(s, at, 3 + usize::from(e.rights), b'G', b'N', scale);
    }
    Ok(())
}

// VR number x of the procedure at a place, whose VRs start at another.
#[tactic(auto, unfolding(form::specs::WellFormed::variable_tests, sheet::specs::Layout::quals_of, sheet::specs::Layout::formals_at, sheet::specs::Layout::inner_at, sheet::specs::Layout::need_at))]
pub fn variable_record(s: &[u8], pr: u32, start: u32, x: u8) -> Verdict
    ensures { result ≡ verdict (variable_tests s.now pr start x) }
{
    let at = variable_at(start, x);
    let f = byte(s, pr as usize, 3);
    let scale = variable_scale(byte(s, 0, 4), f, x, byte(s, at, 2), byte(s, at, 3));
    record(s, at, 4, b'V', b'R', scale)
}

// IN number i, which stands whole at a place. It is read without asking again where the sheet ends.
#[tactic(auto, unfolding(form::specs::WellFormed::instruction_tests_at))]
fn whole_instruction(s: &[u8], l: Limits, i: u16, at: usize) -> Verdict
    requires { at + 8 ≤ length s.now }
    ensures { result ≡ verdict (instruction_tests_at s.now l i at) }
{
    let scale = instruction_scale(l, fields_whole(s, at), i);
    whole_record(s, at, b'I', b'N', scale)
}

// IN number i, at a place.
#[tactic(auto, unfolding(model::specs::Refusal::verdict, model::specs::Refusal::refuse, model::specs::Refusal::failure, form::specs::WellFormed::record_tests, form::specs::WellFormed::instruction_tests_at, sheet::specs::Bytes::whole_at))]
pub fn instruction_record(s: &[u8], l: Limits, i: u16, at: usize) -> Verdict
    ensures { result ≡ verdict (instruction_tests_at s.now l i at) }
{
    require(whole(s, at, 8), Reason::Torn.at(at))?;
    whole_instruction(s, l, i, at)
}
