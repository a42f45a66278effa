// Call and return of the watched machine, with every binding, each in the scope of a frame. A stop may leave words between the objects and the frames:
// nothing stands there.
#![tactic(auto)]

ghost use Rattle.std.specs.Prelude.{List, ℕ, ◌+◌, ◌≤◌, length};
ghost use Rattle.std.proofs.Math.Option.{none, some};
ghost use Rattle.model.specs.Generic.{Bound};
ghost use Rattle.model.specs.Rights.{Rights};
ghost use Rattle.model.specs.Modes.{watched};
ghost use Rattle.model.specs.declared.Operation.TheVariants as Op;
ghost use Rattle.sheet.specs.Meaning.{qual_of};
ghost use Rattle.index.specs.Indexed.{ProcedureWord};
ghost use Rattle.index.specs.Scope.{inner_as};
ghost use Rattle.settling.specs.Settles.{callee_as, BoundOf};
ghost use Rattle.words.specs.Word.{slot_in, as_cell};
ghost use Rattle.words.specs.Answers.{IsCell};
ghost use Rattle.binding.specs.Binds.{FrameScope};
ghost use Rattle.writers.specs.Memory.{Sane};
ghost use Rattle.frames.specs.Performs.{PerformsInside, Returns};
ghost use Rattle.frames.specs.Frames.{Callable};
ghost use Rattle.watched_calls.specs.Calls.{Settles, ScopeHere, ActualIn, Binds, Enterable, Enters, HandsOver};

use binding::{actual_word, bind_word, result_word};
use form::FormedSheet;
use frames::{keep, kept_in, open, set_in, waiting};
use index::procedures::{Scope, frame_scope, is_bounded_in, own_scope, procedure_in};
use index::sheets::Sheet;
use index::types::name_rights;
use model::{Halt, require};
use settling::settled_by;
use sheet::fields::{field, inner_of};
use words::{formals_in, read, variables_in};
use writers::{Next, Registers, Stepped, frame_end, parts};

// Actual j of a call with variables from b on, of a procedure whose frame has scope c.
fn actual_in(s: Sheet, c: Scope, memory: &[u64], r: Registers, b: u8, j: u8) -> Result<u64, Halt>
    requires { Sane (length memory.now) r }
    ensures { ActualIn s.entry.bytes.now memory.now r c b j result }
{
    let v = parts(memory, r);
    let w = read(v.frame, (b as usize) + (j as usize));
    actual_word(s, v.objects, c, j, w)
}

// The f actuals, each bound in turn and written from `at` on, up to the first stop.
fn bind_actuals(
    s: Sheet,
    c: Scope,
    memory: &mut [u64],
    r: Registers,
    b: u8,
    at: usize,
    f: u8,
) -> Result<(), Halt>
    requires sane { Sane (length memory.old) r }
    requires used_le_at { (r.used ≤ at) × (at + f ≤ r.base) }
    ensures { (k : ℕ) (z : Rights) → FrameScope s.entry.bytes.now k z c → Binds s.entry.bytes.now memory.old memory.new r k b z at f result }
{
    for j in 0..f {
        let w = actual_in(s, c, memory, r, b, j)?;
        memory[at + (j as usize)] = w;
    }
    Ok(())
}

// A call of the procedure of a word, whose frame has scope c: 17, then what each actual gives.
fn enter(s: Sheet, c: Scope, callee: u64, memory: &mut [u64], r: Registers, a: u8, b: u8) -> Stepped
    requires sane { Sane (length memory.old) r }
    requires enterable { Enterable r callee }
    ensures { (k : ℕ) (z : Rights) → FrameScope s.entry.bytes.now k z c → ProcedureWord s.entry.bytes.now k callee → Enters s.entry.bytes.now memory.old memory.new r a b k z result }
{
    let v = variables_in(callee) as usize;
    if r.base - r.used < v + 2 {
        return Err(Halt::MemoryFull);
    }
    let f = formals_in(callee);
    bind_actuals(s, c, memory, r, b, r.base - (v + 2), f)?;
    Ok(Next::Enter(open(memory, r, a, callee, name_rights(c.name), v, f)))
}

// What a call settles, or its stop: 18 where nothing is settled, 19 where the set is short.
#[tactic(auto, using(crate::proofs::Calling::settles_name, crate::proofs::Calling::stops_by, crate::proofs::Calling::stops_unsettled))]
fn settled(s: Sheet, bounded: bool, to: Scope, p: Scope, b: u8) -> Result<u64, Halt>
    ensures { (bound : Bound) → BoundOf bound bounded to → Settles (inner_as s.entry.bytes.now p) (callee_as s.entry.bytes.now bound to) b result }
{
    let name = settled_by(s, bounded, to, p, b)?;
    Ok(name)
}

// A call of procedure k from the frame of scope p: 18 for a result that is kept and not there, 18 and 19 for what ?R is settled to, then the rest.
pub fn call(
    s: FormedSheet,
    p: Scope,
    memory: &mut [u64],
    r: Registers,
    a: u8,
    b: u8,
    k: u16,
) -> Stepped
    requires sane { Sane (length memory.old) r }
    requires callable { Callable s.sheet.bytes.now r a b k }
    requires scope_here { ScopeHere s.sheet.bytes.now memory.old r p }
    ensures { PerformsInside watched s.entry.sheet.bytes.now memory.old memory.new r result (Op.Call a b k) }
{
    let callee = procedure_in(s.sheet.index, k as usize);
    let own = own_scope(s.sheet.bytes, callee);
    if (a != 255) & (field(s.sheet.bytes, own.head, 5) == 255) {
        return Err(Halt::WrongKind);
    }
    let name = settled(s.sheet, is_bounded_in(callee), own, p, b)?;
    enter(s.sheet, Scope { name, ..own }, callee, memory, r, a, b)
}

// What a return of variable a from the frame of scope p hands over: the word of a filled cell, or nothing. Its procedure has a result exactly if a is not
// 255; else 18.
fn handed_by(s: Sheet, p: Scope, memory: &[u64], r: Registers, a: u8) -> Result<Option<u64>, Halt>
    requires { Sane (length memory.now) r }
    ensures { HandsOver s.entry.bytes.now memory.now r p a result }
{
    let none = field(s.bytes, p.head, 5) == 255;
    if a == 255 {
        require(none, Halt::WrongKind)?;
        return Ok(None);
    }
    require(!none, Halt::WrongKind)?;
    let v = parts(memory, r);
    let x = result_word(s, v.objects, p, read(v.frame, a as usize))?;
    Ok(Some(x))
}

// The frame that waits runs on with nothing: 18 where its call keeps a result.
fn resume_without(memory: &[u64], r: Registers) -> Stepped
    requires { Sane (length memory.now) r }
    ensures { (s out : List ℕ) → Returns watched s memory.now memory.now out r result none }
{
    if memory.len() <= frame_end(r) + 2 {
        return Ok(Next::Done);
    }
    require(kept_in(memory, r) == 255, Halt::WrongKind)?;
    Ok(Next::Enter(waiting(memory, r)))
}

// The frame that waits runs on with a value, which the variable that its call keeps is bound to.
fn resume_with(s: FormedSheet, memory: &mut [u64], r: Registers, w: u64) -> Stepped
    requires sane { Sane (length memory.old) r }
    requires cell { IsCell w }
    ensures { (out : List ℕ) → Returns watched s.entry.sheet.bytes.now memory.old memory.new out r result (some (as_cell (slot_in watched (qual_of s.entry.sheet.bytes.now) w))) }
{
    if memory.len() <= frame_end(r) + 2 {
        return Ok(Next::Done);
    }
    let back = waiting(memory, r);
    let kept = kept_in(memory, r);
    if kept == 255 {
        return Ok(Next::Enter(back));
    }
    let sheet = s.sheet;
    let c = frame_scope(sheet.bytes, back.procedure, set_in(memory, back));
    let q = inner_of(sheet.bytes, c.start, kept);
    let x = bind_word(sheet.index, c.name, parts(memory, r).objects, q, w)?;
    keep(memory, back, kept, x);
    Ok(Next::Enter(back))
}

// A return of variable a from the frame of scope p; 255 is none. What it hands over is bound to the result, then to the variable that the call keeps.
pub fn give_back(s: FormedSheet, p: Scope, memory: &mut [u64], r: Registers, a: u8) -> Stepped
    requires sane { Sane (length memory.old) r }
    requires scope_here { ScopeHere s.sheet.bytes.now memory.old r p }
    ensures { PerformsInside watched s.entry.sheet.bytes.now memory.old memory.new r result (Op.Return a) }
{
    match handed_by(s.sheet, p, memory, r, a)? {
        None => resume_without(memory, r),
        Some(w) => resume_with(s, memory, r, w),
    }
}
