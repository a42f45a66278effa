// The rules of calls and returns. 255 as a variable, or as a result, is none.
#![tactic(auto)]

ghost use Rattle.std.specs.Prelude.{◌≡◌, ◌+◌};
ghost use Rattle.model.specs.Generic.{Bound, own};
ghost use Rattle.model.specs.Refusal.{failure, each};
ghost use Rattle.model.specs.Rules.{moves, optional, optional_variable, return_rule, keeps, kept_rule, passing_rule, call_rule};
ghost use Rattle.sheet.specs.Layout.{formals_at};
ghost use Rattle.index.specs.Types.{named_as};
ghost use Rattle.index.specs.Scope.{inner_as, need_as, result_as};
ghost use Rattle.settling.specs.Settles.{callee_as, BoundOf};

use index::procedures::Scope;
use index::sheets::Sheet;
use model::{Reason, require};
use order::movement_in;
use settling::settled_by;
use sheet::fields::{field, inner_of, need_of};

// A return of variable a in the scope of a procedure, p.
#[tactic(auto, using(crate::proofs::Laws::return_tests))]
pub fn return_rule(s: Sheet, p: Scope, a: u8) -> Result<(), Reason>
    ensures { result ≡ failure (return_rule (optional_variable (inner_as s.entry.bytes.now p) (optional a)) (result_as s.entry.bytes.now p)) }
{
    let result = field(s.bytes, p.head, 5);
    if a == 255 {
        return require(result == 255, Reason::TypeMismatch);
    }
    require(result != 255, Reason::TypeMismatch)?;
    movement_in(s, p.name, inner_of(s.bytes, p.start, a), p.name, result)
}

// Actual j of a call with variables from b on moves to need j of the procedure called, whose scope is `to`.
#[tactic(auto, using(crate::proofs::Laws::actual_is, crate::proofs::Laws::need_is))]
fn actual_rule(s: Sheet, p: Scope, to: Scope, b: u8, j: u8) -> Result<(), Reason>
    ensures { result ≡ failure (moves (inner_as s.entry.bytes.now p (b + j)) (need_as s.entry.bytes.now to j)) }
{
    let x = u16::from(b) + u16::from(j);
    let from = field(s.bytes, p.start, 2 + 4 * x);
    let need = need_of(s.bytes, to.start, j);
    movement_in(s, p.name, from, to.name, need)
}

#[tactic(auto, using(model::proofs::Verdicts::each_test), unfolding(sheet::specs::Layout::formals_at))]
fn actuals_rule(s: Sheet, p: Scope, to: Scope, b: u8) -> Result<(), Reason>
    ensures { result ≡ failure (each (formals_at s.entry.bytes.now to.head) (λ j. moves (inner_as s.entry.bytes.now p (b + j)) (need_as s.entry.bytes.now to j))) }
{
    let formals = field(s.bytes, to.head, 3);
    for j in 0..formals {
        actual_rule(s, p, to, b, j)?;
    }
    Ok(())
}

// A call that keeps a result is of a procedure that has one.
#[tactic(auto, using(crate::proofs::Laws::keeps_tests), unfolding(sheet::specs::Layout::result_at))]
fn keeps_result(s: &[u8], p: Scope, to: Scope, a: u8) -> bool
    ensures { result ≡ keeps (optional_variable (inner_as s.now p) (optional a)) (result_as s.now to) }
{
    (a == 255) | (field(s, to.head, 5) != 255)
}

#[tactic(auto, using(crate::proofs::Laws::kept_tests))]
fn kept_result_rule(s: Sheet, p: Scope, to: Scope, a: u8) -> Result<(), Reason>
    ensures { result ≡ failure (kept_rule (optional_variable (inner_as s.entry.bytes.now p) (optional a)) (result_as s.entry.bytes.now to)) }
{
    let result = field(s.bytes, to.head, 5);
    if (a == 255) | (result == 255) {
        return Ok(());
    }
    movement_in(s, to.name, result, p.name, inner_of(s.bytes, p.start, a))
}

// The movements of a call, where ?R of the procedure called stands for what a name has.
#[tactic(auto, using(crate::proofs::Laws::passing_tests))]
fn passing(s: Sheet, p: Scope, to: Scope, name: u64, a: u8, b: u8) -> Result<(), Reason>
    ensures { (bound : Bound) → named_as to.name ≡ own bound → result ≡ failure (passing_rule (inner_as s.entry.bytes.now p) (callee_as s.entry.bytes.now bound to) (named_as name) a b) }
{
    let read = Scope { name, ..to };
    let keeps = keeps_result(s.bytes, p, read, a);
    require(keeps, Reason::TypeMismatch)?;
    actuals_rule(s, p, read, b)?;
    kept_result_rule(s, p, read, a)
}

// A call, in the scope of a procedure, p, of the one of scope `to`, which reads ?R itself there and has a bound or none: what it settles, then its movements.
#[tactic(auto, using(crate::proofs::Laws::call_refused, crate::proofs::Laws::call_unsettled, crate::proofs::Laws::call_short, crate::proofs::Laws::call_passes))]
pub fn call_rule(s: Sheet, p: Scope, bounded: bool, to: Scope, a: u8, b: u8) -> Result<(), Reason>
    ensures { (bound : Bound) → BoundOf bound bounded to → result ≡ failure (call_rule (inner_as s.entry.bytes.now p) (callee_as s.entry.bytes.now bound to) a b) }
{
    let name = settled_by(s, bounded, to, p, b)?;
    passing(s, p, to, name, a, b)
}
