// The procedures of an index by their numbers.
ghost use Rattle.std.specs.Prelude.{◌≡◌, List, ℕ, ◌+◌, ◌<◌, ◌≤◌};
ghost use Rattle.model.specs.Qualified.{declared, generic};
ghost use Rattle.model.specs.Generic.{bound_base, least, own, instance};
ghost use Rattle.sheet.specs.Layout.{is_bounded, procedure_at};
ghost use Rattle.sheet.specs.Meaning.{bound_in_sheet};
ghost use Rattle.index.specs.Types.{named_as};
ghost use Rattle.index.specs.Procedures.{procedure_in, start_of, place_of};
ghost use Rattle.index.specs.Indexed.{PlacedWord};
ghost use Rattle.index.specs.Scope.{bound_of_procedure, Bounded, ScopeOf};

use crate::Index;
use sheet::edition::{Encoded, rights_at};
use sheet::fields::field;
use words::{bound_in, first_in, variables_in};

// A procedure as types are read in it: where its PR and its VRs stand, and the word of what ?R is.
#[derive(Clone, Copy)]
pub struct Scope {
    pub head: u32,
    pub start: u32,
    pub name: u64,
}

// The word of procedure p.
pub fn procedure_in(index: &Index, p: usize) -> u64
    ensures { result ≡ procedure_in index.now p }
{
    if p < 65 {
        return index[64 + p];
    }
    0
}

// Where the VRs start, in the word of a procedure.
pub fn start_in(w: u64) -> u32
    ensures { result ≡ start_of w }
{
    let first = first_in(w);
    let variables = 4 * (variables_in(w) as u32);
    if first < variables {
        return 0;
    }
    first - variables
}

// Where the PR stands.
pub fn place_in(w: u64) -> u32
    ensures { result ≡ place_of w }
{
    let start = start_in(w);
    let head = 8 + (bound_in(w) as u32);
    if start < head {
        return 0;
    }
    start - head
}

// The place of the PR of procedure p.
pub fn place_of(index: &Index, p: usize) -> u32
    ensures { result ≡ place_of (procedure_in index.now p) }
{
    place_in(procedure_in(index, p))
}

// The name of a base with rights; inside its procedure it is ?R still.
pub fn instance_name(base: u8, rights: u32) -> u64
    ensures { 2 ≤ base → base < 34 → named_as result ≡ declared base rights }
{
    base_bits(base) * 4294967296 + (rights as u64)
}

fn own_name(base: u8, rights: u32) -> u64
    ensures { 2 ≤ base → base < 34 → named_as result ≡ generic base rights }
{
    (32 + base_bits(base)) * 4294967296 + (rights as u64)
}

// A base less 2, in 5 bits.
fn base_bits(base: u8) -> u64
    ensures result_value { 2 ≤ base → base < 34 → result + 2 ≡ base }
    ensures upper_bound { result < 32 }
{
    (((base as u16) + 254) % 256 % 32) as u64
}

// Whether the procedure of a word has a GN.
pub fn is_bounded_in(w: u64) -> bool
    ensures { (s : List ℕ) (k : ℕ) → PlacedWord s k w → result ≡ is_bounded s k (procedure_at s k) }
{
    0 < bound_in(w)
}

// The base of the bound of the procedure of a word, whose PR stands at a place; 2 where it has none.
pub fn base_in(s: &[u8], w: u64, pr: u32) -> u8
    ensures { (k : ℕ) → PlacedWord s.now k w → pr ≡ procedure_at s.now k → result ≡ bound_base (bound_in_sheet s.now k pr) }
{
    if is_bounded_in(w) {
        return field(s, pr, 10);
    }
    2
}

// Its least set; empty where it has none.
pub fn least_in(s: &[u8], w: u64, pr: u32) -> u32
    ensures { (k : ℕ) → PlacedWord s.now k w → pr ≡ procedure_at s.now k → result ≡ least (bound_in_sheet s.now k pr) }
{
    if is_bounded_in(w) {
        let e = Encoded::new(s);
        return rights_at(s, e.rights, (pr as usize) + 8);
    }
    0
}

// The procedure of a word, which reads ?R with its own bound.
pub fn own_scope(s: &[u8], w: u64) -> Scope
    ensures { (k : ℕ) → PlacedWord s.now k w → Bounded s.now k → ScopeOf s.now k (own (bound_of_procedure s.now k)) result }
{
    let head = place_in(w);
    let start = start_in(w);
    let name = own_name(base_in(s, w, head), least_in(s, w, head));
    Scope { head, start, name }
}

// The procedure of a word in a frame with a set.
pub fn frame_scope(s: &[u8], w: u64, set: u32) -> Scope
    ensures { (k : ℕ) → PlacedWord s.now k w → Bounded s.now k → ScopeOf s.now k (instance (bound_of_procedure s.now k) set) result }
{
    let head = place_in(w);
    let start = start_in(w);
    let name = instance_name(base_in(s, w, head), set);
    Scope { head, start, name }
}
