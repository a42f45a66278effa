// The pass over all records in their order for 6 to 9, 20 and 21, one loop a kind.
ghost use Rattle.std.specs.Prelude.{◌≡◌};
ghost use Rattle.model.specs.Refusal.{Accepted, verdict, refuse, each};
ghost use Rattle.model.specs.Rules.{type_rules, qual_rules, head_rules, variable_rules, instruction_rules, procedure_rules, access_rules};
ghost use Rattle.sheet.specs.Layout.{procedures_of, variables_field, instructions_at, instruction_at, procedure_at};
ghost use Rattle.sheet.specs.Decode.{operation_at};
ghost use Rattle.sheet.specs.Meaning.{program_of, place_of};
ghost use Rattle.access.specs.Inner.Callees.{OwnScope, CalleeThere, CalleesAt, Callees};

use declaration_rules::{element_rule, has_closed_result, slots_rule, variable_rule};
use index::procedures::{Scope, own_scope, procedure_in};
use index::sheets::Sheet;
use instruction_rules::instruction_rule;
use model::{Reason, Verdict, record_verdict, require};
use sheet::bytes::{byte, word};
use sheet::decode::instruction_in;
use sheet::fields::field;
use sheet::places::{instruction_from, qual_at, variable_at};

// TY number i.
fn type_access(s: Sheet, i: u8) -> Verdict
    ensures { result ≡ verdict (type_rules (place_of s.entry.bytes.now) (program_of s.entry.bytes.now) i) }
{
    let at = 6 + 12 * usize::from(i);
    record_verdict(slots_rule(s, at), at)
}

#[tactic(auto, using(model::proofs::Verdicts::each_pass))]
fn types_access(s: Sheet, n: u8) -> Verdict
    ensures { result ≡ verdict (each n (type_rules (place_of s.entry.bytes.now) (program_of s.entry.bytes.now))) }
{
    for i in 0..n {
        type_access(s, i)?;
    }
    Ok(())
}

#[tactic(auto, using(crate::proofs::Places::qual_verdict))]
fn qual_access(s: Sheet, j: u8) -> Verdict
    ensures { result ≡ verdict (qual_rules (place_of s.entry.bytes.now) (program_of s.entry.bytes.now) j) }
{
    record_verdict(element_rule(s.index, j), qual_at(s.encoded(), j))
}

#[tactic(auto, using(model::proofs::Verdicts::each_pass))]
fn quals_access(s: Sheet, n: u8) -> Verdict
    ensures { result ≡ verdict (each n (qual_rules (place_of s.entry.bytes.now) (program_of s.entry.bytes.now))) }
{
    for j in 0..n {
        qual_access(s, j)?;
    }
    Ok(())
}

// The PR of procedure p, at a place.
#[tactic(auto, unfolding(model::specs::Refusal::verdict, model::specs::Refusal::refuse, model::specs::Refusal::failure, model::specs::Rules::head_rules))]
fn head_access(s: Sheet, p: usize, pr: u32) -> Verdict
    requires pr_value { pr ≡ procedure_at s.bytes.now p }
    ensures { result ≡ verdict (head_rules (place_of s.entry.bytes.now) (program_of s.entry.bytes.now) p) }
{
    require(
        has_closed_result(s, pr),
        Reason::OpenExposed.at(pr as usize),
    )
}

// A variable of procedure p, whose scope is c.
#[tactic(auto, unfolding(model::specs::Refusal::verdict, model::specs::Rules::variable_rule, model::specs::Rules::variable_rules))]
fn variable_access(s: Sheet, p: usize, c: Scope, x: u8) -> Verdict
    requires own_scope { OwnScope s.bytes.now p c }
    ensures { result ≡ verdict (variable_rules (place_of s.entry.bytes.now) (program_of s.entry.bytes.now) p x) }
{
    record_verdict(
        variable_rule(s, c.head, c.start, x),
        variable_at(c.start, x),
    )
}

#[tactic(auto, unfolding(sheet::specs::Layout::variables_field), using(model::proofs::Verdicts::each_pass))]
fn variables_access(s: Sheet, p: usize, c: Scope) -> Verdict
    requires own_scope { OwnScope s.bytes.now p c }
    ensures { result ≡ verdict (each (variables_field s.entry.bytes.now (procedure_at s.entry.bytes.now p)) (variable_rules (place_of s.entry.bytes.now) (program_of s.entry.bytes.now) p)) }
{
    let n = field(s.bytes, c.head, 4);
    for x in 0..n {
        variable_access(s, p, c, x)?;
    }
    Ok(())
}

// An instruction of it, at a place.
#[tactic(auto, unfolding(model::specs::Refusal::verdict, model::specs::Rules::instruction_rules, sheet::specs::Decode::instruction_in))]
fn instruction_access(s: Sheet, p: usize, c: Scope, i: u16, at: usize) -> Verdict
    requires own_scope { OwnScope s.bytes.now p c }
    requires at_value { at ≡ instruction_at s.bytes.now p i }
    requires callee_there { CalleeThere s.bytes.now (operation_at s.bytes.now at) }
    ensures { result ≡ verdict (instruction_rules (place_of s.entry.bytes.now) (program_of s.entry.bytes.now) p i) }
{
    let read = instruction_in(s.bytes, p, i, at);
    record_verdict(instruction_rule(s, c, read), at)
}

#[tactic(auto, unfolding(sheet::specs::Layout::instructions_at, crate::specs::Inner::Callees::CalleesAt), using(model::proofs::Verdicts::each_pass))]
fn instructions_access(s: Sheet, p: usize, c: Scope) -> Verdict
    requires own_scope { OwnScope s.bytes.now p c }
    requires callees_at { CalleesAt s.bytes.now p }
    ensures { result ≡ verdict (each (instructions_at s.entry.bytes.now (procedure_at s.entry.bytes.now p)) (instruction_rules (place_of s.entry.bytes.now) (program_of s.entry.bytes.now) p)) }
{
    let n = word(s.bytes, c.head as usize, 6);
    let first = instruction_from(c.start, field(s.bytes, c.head, 4), 0);
    for i in 0..n {
        instruction_access(s, p, c, i, first + 8 * usize::from(i))?;
    }
    Ok(())
}

#[tactic(auto, unfolding(model::specs::Rules::procedure_rules), using(model::proofs::Verdicts::pass_by_pass))]
fn procedure_access(s: Sheet, p: usize, c: Scope) -> Verdict
    requires own_scope { OwnScope s.bytes.now p c }
    requires callees_at { CalleesAt s.bytes.now p }
    ensures { result ≡ verdict (procedure_rules (place_of s.entry.bytes.now) (program_of s.entry.bytes.now) p) }
{
    head_access(s, p, c.head)?;
    variables_access(s, p, c)?;
    instructions_access(s, p, c)
}

#[tactic(auto, using(model::proofs::Verdicts::each_pass))]
fn procedures_access(s: Sheet, n: usize) -> Verdict
    requires callees { Callees s.bytes.now }
    requires n_value { n ≡ procedures_of s.bytes.now }
    ensures { result ≡ verdict (each n (procedure_rules (place_of s.entry.bytes.now) (program_of s.entry.bytes.now))) }
{
    for p in 0..n {
        procedure_access(s, p, own_scope(s.bytes, procedure_in(s.index, p)))?;
    }
    Ok(())
}

// Refusals 6 to 9, 20 and 21 of a well-formed sheet.
#[tactic(auto, unfolding(model::specs::Rules::access_rules, sheet::specs::Layout::types_of, sheet::specs::Layout::quals_of, sheet::specs::Layout::procedures_of), using(model::proofs::Verdicts::pass_by_pass))]
pub fn access(s: Sheet) -> Verdict
    requires callees { Callees s.bytes.now }
    ensures { result ≡ verdict (access_rules (place_of s.entry.bytes.now) (program_of s.entry.bytes.now)) }
{
    types_access(s, byte(s.bytes, 0, 3))?;
    quals_access(s, byte(s.bytes, 0, 4))?;
    procedures_access(s, usize::from(byte(s.bytes, 0, 5)))
}
