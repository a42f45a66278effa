// The access rules of each instruction: refusals 8, 9, 20 and 21.
#![tactic(auto)]

ghost use Rattle.std.specs.Prelude.{◌≡◌, ◌<◌};
ghost use Rattle.model.specs.Refusal.{failure};
ghost use Rattle.model.specs.Generic.{own};
ghost use Rattle.model.specs.Rules.{call_rule, called, rule, callee};
ghost use Rattle.sheet.specs.Layout.{procedures_of};
ghost use Rattle.sheet.specs.Meaning.{program_of};
ghost use Rattle.index.specs.Scope.{bound_of_procedure, Bounded, ScopeOf, inner_as};

use call_rules::{call_rule, return_rule};
use index::procedures::{Scope, is_bounded_in, own_scope, procedure_in};
use index::sheets::Sheet;
use model::{Instruction, Operation, Reason};
use operation_rules::{
    array_rule, bind_rule, fetch_rule, get_slot_rule, integer_rule, integers_rule, record_rule,
    set_slot_rule, size_rule, store_rule,
};

// A call of procedure k.
fn called_rule(s: Sheet, p: Scope, k: usize, a: u8, b: u8) -> Result<(), Reason>
    requires k_bound { (k < procedures_of s.bytes.now) × Bounded s.bytes.now k }
    ensures { result ≡ failure (call_rule (inner_as s.entry.bytes.now p) (called (program_of s.entry.bytes.now) k) a b) }
{
    let w = procedure_in(s.index, k);
    let to = own_scope(s.bytes, w);
    call_rule(s, p, is_bounded_in(w), to, a, b)
}

// An instruction in the scope of its procedure, p: its first refusal.
#[tactic(auto, unfolding(model::specs::Rules::rule, model::specs::Rules::callee), using(crate::proofs::Laws::typed_as, crate::proofs::Laws::typed_all, crate::proofs::Laws::slot_as, index::proofs::Reading::result_read))]
pub fn instruction_rule(s: Sheet, p: Scope, i: Instruction) -> Result<(), Reason>
    requires scope_of { ScopeOf s.bytes.now i.procedure (own (bound_of_procedure s.bytes.now i.procedure)) p }
    requires operation_bound { (callee i.operation < procedures_of s.bytes.now) × Bounded s.bytes.now (callee i.operation) }
    ensures { result ≡ failure (rule (program_of s.entry.bytes.now) i.procedure i.operation) }
{
    match i.operation {
        Operation::Set(a, _) => integer_rule(s, p, a),
        Operation::Add(a, b, c) => integers_rule(s, p, a, b, c),
        Operation::Subtract(a, b, c) => integers_rule(s, p, a, b, c),
        Operation::Less(a, b, c) => integers_rule(s, p, a, b, c),
        Operation::JumpZero(a, _) => integer_rule(s, p, a),
        Operation::Bind(a, b) => bind_rule(s, p, a, b),
        Operation::Take(a) => integer_rule(s, p, a),
        Operation::Put(a) => integer_rule(s, p, a),
        Operation::NewArray(a, b) => array_rule(s, p, a, b),
        Operation::Fetch(a, b, c) => fetch_rule(s, p, a, b, c),
        Operation::Store(a, b, c) => store_rule(s, p, a, b, c),
        Operation::Size(a, b) => size_rule(s, p, a, b),
        Operation::NewRecord(a) => record_rule(s, p, a),
        Operation::GetSlot(a, b, k) => get_slot_rule(s, p, a, b, k),
        Operation::SetSlot(a, b, k) => set_slot_rule(s, p, a, b, k),
        Operation::Call(a, b, k) => called_rule(s, p, usize::from(k), a, b),
        Operation::Return(a) => return_rule(s, p, a),
    }
}
