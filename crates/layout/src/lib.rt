// The pass over all records in their order, one loop a kind, and the bytes left over.
#![tactic(auto)]

ghost use Rattle.std.specs.Prelude.{◌≡◌, ◌++◌, ◌-◌, ◌≤◌};
ghost use Rattle.model.specs.Refusal.{verdict, each};
ghost use Rattle.sheet.specs.Layout.{procedures_of, variables_field, instructions_at, start_from};
ghost use Rattle.sheet.specs.Reader.{past_at};
ghost use Rattle.form.specs.WellFormed.{length_tests, type_tests, qual_tests, variable_tests, limits_at, instruction_tests, procedure_tests_at, procedure_tests, leftover_tests, layout_tests};

use index::procedures::{place_in, place_of, procedure_in, start_in};
use index::sheets::AnySheet;
use limits::Limits;
use model::{Reason, Verdict, require};
use reader::left_after;
use records::{
    bound_record, head_record, header, instruction_record, qual_record, type_record,
    variable_record,
};
use sheet::bytes::{byte, word};
use sheet::edition::Encoded;
use sheet::places::{instruction_from, type_at};

#[tactic(auto, using(model::proofs::Verdicts::each_pass))]
fn types_pass(e: Encoded, t: u8) -> Verdict
    ensures { result ≡ verdict (each t (type_tests e.entry.bytes.now)) }
{
    for i in 0..t {
        type_record(e, i)?;
    }
    Ok(())
}

#[tactic(auto, using(model::proofs::Verdicts::each_pass))]
fn quals_pass(e: Encoded, q: u8) -> Verdict
    ensures { result ≡ verdict (each q (qual_tests e.entry.bytes.now)) }
{
    for j in 0..q {
        qual_record(e, j)?;
    }
    Ok(())
}

#[tactic(auto, using(model::proofs::Verdicts::each_pass), unfolding(sheet::specs::Layout::variables_field))]
fn variables_pass(s: &[u8], pr: u32, start: u32) -> Verdict
    ensures { result ≡ verdict (each (variables_field s.now pr) (variable_tests s.now pr start)) }
{
    for x in 0..byte(s, pr as usize, 4) {
        variable_record(s, pr, start, x)?;
    }
    Ok(())
}

// What the limits of the INs of the procedure at a place depend on.
#[tactic(auto, unfolding(sheet::specs::Layout::slots_of, sheet::specs::Layout::owner_at, sheet::specs::Layout::instructions_at, sheet::specs::Layout::variables_field))]
fn limits_at(s: &[u8], pr: u32) -> Limits
    ensures { result ≡ limits_at s.now pr }
{
    let at = pr as usize;
    let owner = byte(s, at, 2);
    Limits {
        variables: byte(s, at, 4),
        instructions: word(s, at, 6),
        owner,
        slots: byte(s, type_at(owner), 3),
    }
}

#[tactic(auto, using(model::proofs::Verdicts::each_pass, form::proofs::Laws::instruction_counted, form::proofs::Laws::instruction_here))]
fn instructions_pass(s: &[u8], pr: u32, start: u32) -> Verdict
    ensures { result ≡ verdict (each (instructions_at s.now pr) (instruction_tests s.now pr start)) }
{
    let l = limits_at(s, pr);
    let first = instruction_from(start, l.variables, 0);
    for i in 0..l.instructions {
        instruction_record(s, l, i, first + 8 * usize::from(i))?;
    }
    Ok(())
}

// Procedure p, at a place: its PR, GN, VRs, which start at another, INs.
#[tactic(auto, unfolding(form::specs::WellFormed::procedure_tests_at), using(model::proofs::Verdicts::pass_by_pass))]
fn procedure_pass(e: Encoded, p: usize, pr: u32, start: u32) -> Verdict
    requires { start ≡ start_from e.bytes.now p pr }
    ensures { result ≡ verdict (procedure_tests_at e.entry.bytes.now p pr) }
{
    head_record(e.bytes, p, pr)?;
    bound_record(e.bytes, p, pr)?;
    variables_pass(e.bytes, pr, start)?;
    instructions_pass(e.bytes, pr, start)
}

#[tactic(auto, using(model::proofs::Verdicts::each_pass, form::proofs::Laws::started, crate::proofs::Places::procedure_here))]
fn procedures_pass(s: AnySheet, n: usize) -> Verdict
    requires n_bound { n ≤ 64 }
    requires n_value { n ≡ procedures_of s.bytes.now }
    ensures { result ≡ verdict (each n (procedure_tests s.entry.bytes.now)) }
{
    for p in 0..n {
        let w = procedure_in(s.index, p);
        procedure_pass(s.encoded(), p, place_in(w), start_in(w))?;
    }
    Ok(())
}

// No byte is left over after the last record, an IN, which ends at a place.
#[tactic(auto, unfolding(form::specs::WellFormed::leftover_tests, model::specs::Refusal::verdict, model::specs::Refusal::refuse, model::specs::Refusal::failure), using(form::proofs::Laws::none_left, form::proofs::Laws::some_left))]
fn leftover(s: &[u8], end: u32) -> Verdict
    requires le_end { 8 ≤ end }
    requires end_value { past_at s.now (end - 8) ≡ end }
    ensures { result ≡ verdict (leftover_tests s.now end) }
{
    let at = end as usize;
    require(left_after(s, at - 8) == 0, Reason::Torn.at(at))
}

#[tactic(auto, unfolding(form::specs::WellFormed::length_tests, model::specs::Refusal::verdict, model::specs::Refusal::refuse, model::specs::Refusal::failure))]
fn overlong(s: &[u8]) -> Verdict
    ensures { result ≡ verdict (length_tests s.now) }
{
    require(s.len() <= 32768, Reason::Overlong.at(0))
}

// Refusal 1, then 2 to 5 record by record, then bytes left over.
#[tactic(auto, unfolding(form::specs::WellFormed::layout_tests, sheet::specs::Layout::types_of, sheet::specs::Layout::quals_of, sheet::specs::Layout::procedures_of), using(model::proofs::Verdicts::pass_by_pass, crate::proofs::Places::few_procedures, crate::proofs::Places::end_here, crate::proofs::Places::end_above, crate::proofs::Places::end_past))]
pub fn layout(s: AnySheet) -> Verdict
    ensures { result ≡ verdict (length_tests s.entry.bytes.now ++ layout_tests s.entry.bytes.now) }
{
    overlong(s.bytes)?;
    header(s.bytes)?;
    types_pass(s.encoded(), byte(s.bytes, 0, 3))?;
    quals_pass(s.encoded(), byte(s.bytes, 0, 4))?;
    let n = usize::from(byte(s.bytes, 0, 5));
    procedures_pass(s, n)?;
    leftover(s.bytes, place_of(s.index, n))
}
