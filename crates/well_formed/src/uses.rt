// Where ?R may not stand (document 02, S-1): in a slot, and in a procedure without a GN.
ghost use Rattle.std.specs.Prelude.{◌≡◌, not, [], ◌∷◌, ℕ, ◌+◌};
ghost use Rattle.model.specs.Refusal.{verdict, failure, test, each};
ghost use Rattle.model.specs.declared.Reason.TheVariants.{OffScale};
ghost use Rattle.model.specs.Generic as generic;
ghost use Rattle.sheet.specs.Bytes.{byte_at};
ghost use Rattle.sheet.specs.Layout.{variables_field, is_bounded};
ghost use Rattle.sheet.specs.Meaning.{qual_of};
ghost use Rattle.form.specs.WellFormed.{slot_uses, head_uses, variable_uses};

use index::sheets::Sheet;
use index::types::uses_name;
use model::{Reason, Verdict, record_verdict, require};
use sheet::bytes::byte;
use sheet::fields::{field, inner_of, need_of};
use sheet::places::variable_at;

// No slot of the TY at a place uses ?R.
#[tactic(auto, using(model::proofs::Verdicts::each_test, crate::proofs::Told::slot_told))]
fn slots_allowed(s: Sheet, at: usize) -> Result<(), Reason>
    ensures { result ≡ failure (each (byte_at s.entry.bytes.now at 3) (λ k. test OffScale (not (generic.uses (qual_of s.entry.bytes.now (byte_at s.entry.bytes.now at (4 + k))))) ∷ [])) }
{
    for k in 0..byte(s.bytes, at, 3) {
        let slot = byte(s.bytes, at, 4 + usize::from(k));
        require(!uses_name(s.index, slot), Reason::OffScale)?;
    }
    Ok(())
}

// The slots of all types.
#[tactic(auto, using(model::proofs::Verdicts::each_pass, crate::proofs::Told::slots_here))]
pub fn slot_uses(s: Sheet, n: u8) -> Verdict
    ensures { result ≡ verdict (each n (slot_uses s.entry.bytes.now)) }
{
    for i in 0..n {
        let at = 6 + 12 * usize::from(i);
        record_verdict(slots_allowed(s, at), at)?;
    }
    Ok(())
}

// The result of the PR at a place.
#[tactic(auto, unfolding(form::specs::WellFormed::head_uses, model::specs::Refusal::verdict, model::specs::Refusal::refuse, model::specs::Refusal::failure), using(crate::proofs::Told::result_told))]
pub fn head_use(s: Sheet, bounded: bool, pr: u32) -> Verdict
    ensures { (p : ℕ) → bounded ≡ is_bounded s.entry.bytes.now p pr → result ≡ verdict (head_uses s.entry.bytes.now p pr) }
{
    let used = uses_name(s.index, field(s.bytes, pr, 5));
    require(bounded | !used, Reason::OffScale.at(pr as usize))
}

// Variable x of a procedure whose VRs start at a place.
#[tactic(auto, unfolding(form::specs::WellFormed::variable_uses, sheet::specs::Meaning::inner_in, sheet::specs::Meaning::need_in, model::specs::Refusal::verdict, model::specs::Refusal::refuse, model::specs::Refusal::failure), using(crate::proofs::Told::use_told))]
fn variable_use(s: Sheet, bounded: bool, start: u32, x: u8) -> Verdict
    ensures { result ≡ verdict (variable_uses s.entry.bytes.now bounded start x) }
{
    let inner = uses_name(s.index, inner_of(s.bytes, start, x));
    let need = uses_name(s.index, need_of(s.bytes, start, x));
    require(
        bounded | !(inner | need),
        Reason::OffScale.at(variable_at(start, x)),
    )
}

// The variables of the procedure at a place, whose VRs start at another.
#[tactic(auto, unfolding(sheet::specs::Layout::variables_field), using(model::proofs::Verdicts::each_pass))]
pub fn variable_uses(s: Sheet, bounded: bool, pr: u32, start: u32) -> Verdict
    ensures { result ≡ verdict (each (variables_field s.entry.bytes.now pr) (variable_uses s.entry.bytes.now bounded start)) }
{
    for x in 0..byte(s.bytes, pr as usize, 4) {
        variable_use(s, bounded, start, x)?;
    }
    Ok(())
}
