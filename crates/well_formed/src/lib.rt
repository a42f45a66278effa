// Well-formedness, refusals 1 to 5: the layout, then the pass for calls, with where ?R may not stand and the limits of a call that wait for the procedure
// called.
#![tactic(auto)]

pub mod uses; // where ?R may not stand

ghost use Rattle.std.specs.Prelude.{◌≡◌, Err, MatchResult};
ghost use Rattle.model.specs.Refusal.{Accepted, verdict, failure, refuse, each};
ghost use Rattle.sheet.specs.Layout.{procedures_of, variables_field, instructions_at, start_from};
ghost use Rattle.form.specs.Yields.{Yields};
ghost use Rattle.form.specs.WellFormed.{call_tests_at, call_tests, procedure_calls_at, procedure_calls, calls_tests, form_tests};

use crate::uses::{head_use, slot_uses, variable_uses};
use form::FormedSheet;
use index::procedures::{place_in, procedure_in, start_in};
use index::sheets::{AnySheet, Sheet};
use layout::layout;
use limits::actuals_scale;
use model::{Reason, Refusal, Verdict, record_verdict, require};
use sheet::bytes::{byte, word};
use sheet::places::{instruction_from, is_bounded};
use words::formals_in;

// The IN at a place, in a procedure with v variables: a call is of a procedure of the sheet, and has as many variables as that has formals.
#[tactic(auto, unfolding(form::specs::WellFormed::call_tests_at, sheet::specs::Layout::code_at, sheet::specs::Layout::k_at, sheet::specs::Layout::procedures_of, model::specs::Refusal::failure), using(crate::proofs::Told::formals_told))]
fn call_rule(s: Sheet, v: u8, at: usize) -> Result<(), Reason>
    ensures { result ≡ failure (call_tests_at s.entry.bytes.now v at) }
{
    if byte(s.bytes, at, 2) != 16 {
        return Ok(());
    }
    let k = usize::from(word(s.bytes, at, 6));
    require(k < usize::from(byte(s.bytes, 0, 5)), Reason::OffScale)?;
    let formals = formals_in(procedure_in(s.index, k));
    require(
        actuals_scale(formals, byte(s.bytes, at, 4), v),
        Reason::OffScale,
    )
}

// The calls of the procedure at a place, whose VRs start at another.
#[tactic(auto, unfolding(sheet::specs::Layout::variables_field, sheet::specs::Layout::instructions_at), using(model::proofs::Verdicts::each_pass, crate::proofs::Told::call_told))]
fn calls_pass(s: Sheet, pr: u32, start: u32) -> Verdict
    ensures { result ≡ verdict (each (instructions_at s.entry.bytes.now pr) (call_tests s.entry.bytes.now (variables_field s.entry.bytes.now pr) start)) }
{
    let vars = byte(s.bytes, pr as usize, 4);
    let first = instruction_from(start, vars, 0);
    for i in 0..word(s.bytes, pr as usize, 6) {
        let at = first + 8 * usize::from(i);
        record_verdict(call_rule(s, vars, at), at)?;
    }
    Ok(())
}

// Procedure p, at a place: where ?R may not stand in its PR and its VRs, then its calls.
#[tactic(auto, unfolding(form::specs::WellFormed::procedure_calls_at), using(model::proofs::Verdicts::pass_by_pass))]
fn procedure_calls(s: Sheet, p: usize, pr: u32, start: u32) -> Verdict
    requires { start ≡ start_from s.bytes.now p pr }
    ensures { result ≡ verdict (procedure_calls_at s.entry.bytes.now p pr) }
{
    let bounded = is_bounded(s.bytes, p, pr);
    head_use(s, bounded, pr)?;
    variable_uses(s, bounded, pr, start)?;
    calls_pass(s, pr, start)
}

#[tactic(auto, using(model::proofs::Verdicts::each_pass, crate::proofs::Told::procedure_told, crate::proofs::Told::start_told))]
fn procedures_calls(s: Sheet, n: usize) -> Verdict
    requires { n ≡ procedures_of s.bytes.now }
    ensures { result ≡ verdict (each n (procedure_calls s.entry.bytes.now)) }
{
    for p in 0..n {
        let w = procedure_in(s.index, p);
        procedure_calls(s, p, place_in(w), start_in(w))?;
    }
    Ok(())
}

// The pass for calls.
#[tactic(auto, unfolding(form::specs::WellFormed::calls_tests, sheet::specs::Layout::types_of, sheet::specs::Layout::procedures_of), using(model::proofs::Verdicts::pass_by_pass))]
fn calls(s: Sheet) -> Verdict
    ensures { result ≡ verdict (calls_tests s.entry.bytes.now) }
{
    slot_uses(s, byte(s.bytes, 0, 3))?;
    procedures_calls(s, usize::from(byte(s.bytes, 0, 5)))
}

// Refusals 1 to 5, else the sheet as a well-formed one.
#[tactic(auto, using(crate::proofs::Told::layout_refuses, crate::proofs::Told::calls_say, crate::proofs::Told::few_told))]
pub fn well_formed(s: AnySheet) -> Result<FormedSheet, Refusal>
    ensures { Yields (verdict (form_tests s.entry.bytes.now)) s.entry result }
{
    layout(s)?;
    let sheet = s.bounded();
    calls(sheet)?;
    Ok(FormedSheet { sheet })
}
