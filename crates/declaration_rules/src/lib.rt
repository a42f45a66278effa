// The access rules of each declaration: its first refusal, a loose key or a false raise.
#![tactic(auto)]

ghost use Rattle.std.specs.Prelude.{◌≡◌, List, ℕ, ◌+◌};
ghost use Rattle.model.specs.Qualified.{element};
ghost use Rattle.model.specs.Refusal.{failure, each};
ghost use Rattle.model.specs.Rules.{closed, closed_rule, closed_result, agrees, formal_rule, local_rule, declaration_rule};
ghost use Rattle.sheet.specs.Bytes.{byte_at};
ghost use Rattle.sheet.specs.Layout.{owner_at, formals_at};
ghost use Rattle.sheet.specs.Meaning.{qual_of, inner_in, need_in, result_in};
ghost use Rattle.index.specs.Types.{qual_in};
ghost use Rattle.index.specs.Indexed.{Ready};

use index::Index;
use index::sheets::Sheet;
use index::types::{element_of, rights_of};
use model::{Reason, require};
use order::{equal, is_amplified};
use rights::has_right;
use sheet::bytes::byte;
use sheet::fields::{field, inner_of, need_of};

// A qualified type without open.
#[tactic(auto, unfolding(model::specs::Rules::closed))]
fn is_closed(index: &Index, j: u8) -> bool
    ensures { result ≡ closed (qual_in index.now j) }
{
    !has_right(0, rights_of(index, j))
}

#[tactic(auto, unfolding(model::specs::Refusal::failure, model::specs::Rules::closed_rule))]
fn closed_rule(index: &Index, j: u8) -> Result<(), Reason>
    ensures { result ≡ failure (closed_rule (qual_in index.now j)) }
{
    require(is_closed(index, j), Reason::OpenExposed)
}

// The slots of the TY at a place.
#[tactic(auto, using(model::proofs::Verdicts::test_start))]
pub fn slots_rule(s: Sheet, at: usize) -> Result<(), Reason>
    ensures { result ≡ failure (each (byte_at s.entry.bytes.now at 3) (λ k. closed_rule (qual_of s.entry.bytes.now (byte_at s.entry.bytes.now at (4 + k))))) }
{
    let slots = byte(s.bytes, at, 3);
    for k in 0..slots {
        closed_rule(s.index, byte(s.bytes, at, 4 + usize::from(k)))?;
    }
    Ok(())
}

// The element of a QT.
pub fn element_rule(index: &Index, j: u8) -> Result<(), Reason>
    ensures { result ≡ failure (closed_rule (element (qual_in index.now j))) }
{
    let element = element_of(index, j);
    closed_rule(index, element)
}

// The result of the PR at a place.
#[tactic(auto, unfolding(model::specs::Rules::closed_result, sheet::specs::Meaning::result_in, sheet::specs::Layout::result_at))]
pub fn has_closed_result(s: Sheet, pr: u32) -> bool
    ensures { result ≡ closed_result (result_in s.entry.bytes.now pr) }
{
    let result = field(s.bytes, pr, 5);
    result == 255 || is_closed(s.index, result)
}

// Need and inner of a formal agree, ?R unread: where both sides read it alike, as ?R, they are equal exactly if they are so unread.
fn agree(index: &Index, owner: u8, need: u8, inner: u8) -> bool
    ensures { (s : List ℕ) → Ready s index.now → result ≡ agrees owner (qual_of s need) (qual_of s inner) }
{
    if is_amplified(index, owner, inner) {
        return is_amplified(index, owner, need);
    }
    let name: u64 = 137438953472;
    equal(index, name, need, name, inner)
}

#[tactic(auto, unfolding(model::specs::Refusal::failure, model::specs::Rules::formal_rule))]
fn formal_rule(index: &Index, owner: u8, need: u8, inner: u8) -> Result<(), Reason>
    ensures { (s : List ℕ) → Ready s index.now → result ≡ failure (formal_rule owner (qual_of s need) (qual_of s inner)) }
{
    let stands = is_closed(index, need)
        & (is_amplified(index, owner, inner) | is_closed(index, inner));
    require(stands, Reason::OpenExposed)?;
    require(agree(index, owner, need, inner), Reason::FalseRaise)
}

#[tactic(auto, unfolding(model::specs::Refusal::failure, model::specs::Rules::local_rule))]
fn local_rule(index: &Index, owner: u8, inner: u8) -> Result<(), Reason>
    ensures { result ≡ failure (local_rule owner (qual_in index.now inner)) }
{
    require(
        is_amplified(index, owner, inner) | is_closed(index, inner),
        Reason::OpenExposed,
    )
}

// Variable x of the procedure at a place, whose VRs start at another.
pub fn variable_rule(s: Sheet, pr: u32, start: u32, x: u8) -> Result<(), Reason>
    ensures { result ≡ failure (declaration_rule (owner_at s.entry.bytes.now pr) (formals_at s.entry.bytes.now pr) x (need_in s.entry.bytes.now start x) (inner_in s.entry.bytes.now start x)) }
{
    let owner = field(s.bytes, pr, 2);
    let inner = inner_of(s.bytes, start, x);
    if x < field(s.bytes, pr, 3) {
        return formal_rule(s.index, owner, need_of(s.bytes, start, x), inner);
    }
    local_rule(s.index, owner, inner)
}
