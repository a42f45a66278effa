// The operations of the watched machine on values, on input and on output: what each asks for (crate watched_plan), done (crate writers). p is the scope of
// the running frame.
#![tactic(auto)]

ghost use Rattle.std.specs.Prelude.{List, ℕ, ◌<◌, length};
ghost use Rattle.model.specs.Modes.{watched};
ghost use Rattle.model.specs.declared.Operation.TheVariants as Op;
ghost use Rattle.form.specs.Named.{Named};
ghost use Rattle.writers.specs.Memory.{Sane, variables_in};
ghost use Rattle.frames.specs.Performs.{Performs, PerformsInside};
ghost use Rattle.watched_calls.specs.Calls.{ScopeHere};

use index::procedures::Scope;
use index::sheets::Sheet;
use model::arithmetic::Arithmetic;
use model::{Halt, require};
use watched_plan::{arithmetic_guarded, bind_guarded, integer_in, set_guarded, takes_integer};
use writers::{Registers, Stepped, give_moved, give_number, jump, parts, put_output, take_input};

pub fn set(s: Sheet, p: Scope, memory: &mut [u64], r: Registers, a: u8, k: u16) -> Stepped
    requires sane { Sane (length memory.old) r }
    requires next_bound { r.next < 1000 }
    requires named { Named (variables_in r) (Op.Set a k) }
    requires scope_here { ScopeHere s.bytes.now memory.old r p }
    ensures { PerformsInside watched s.entry.bytes.now memory.old memory.new r result (Op.Set a k) }
{
    give_number(memory, r, a, set_guarded(s, p, a, k))
}

// a := b op c, for the operations that make one integer of two.
pub fn arithmetic<A: Arithmetic>(
    s: Sheet,
    p: Scope,
    memory: &mut [u64],
    r: Registers,
    a: u8,
    b: u8,
    c: u8,
) -> Stepped
    requires sane { Sane (length memory.old) r }
    requires next_bound { r.next < 1000 }
    requires named { (a < variables_in r) × ((b < variables_in r) × (c < variables_in r)) }
    requires scope_here { ScopeHere s.bytes.now memory.old r p }
    ensures { PerformsInside watched s.entry.bytes.now memory.old memory.new r result (A.operation a b c) }
{
    let n = arithmetic_guarded::<A>(s, p, parts(memory, r).frame, a, b, c);
    give_number(memory, r, a, n)
}

pub fn jump_zero(memory: &[u64], r: Registers, a: u8, k: u16) -> Stepped
    requires sane { Sane (length memory.now) r }
    requires next_bound { r.next < 1000 }
    requires named { Named (variables_in r) (Op.JumpZero a k) }
    ensures { (s : List ℕ) → PerformsInside watched s memory.now memory.now r result (Op.JumpZero a k) }
{
    jump(r, integer_in(parts(memory, r).frame, a), k)
}

pub fn bind(s: Sheet, p: Scope, memory: &mut [u64], r: Registers, a: u8, b: u8) -> Stepped
    requires sane { Sane (length memory.old) r }
    requires next_bound { r.next < 1000 }
    requires named { Named (variables_in r) (Op.Bind a b) }
    requires scope_here { ScopeHere s.bytes.now memory.old r p }
    ensures { PerformsInside watched s.entry.bytes.now memory.old memory.new r result (Op.Bind a b) }
{
    let m = bind_guarded(s, p, parts(memory, r), a, b);
    give_moved(memory, r, a, m)
}

pub fn take(s: Sheet, p: Scope, input: &[u32], memory: &mut [u64], r: Registers, a: u8) -> Stepped
    requires sane { Sane (length memory.old) r }
    requires next_bound { r.next < 1000 }
    requires named { Named (variables_in r) (Op.Take a) }
    requires scope_here { ScopeHere s.bytes.now memory.old r p }
    ensures { (out : List ℕ) → Performs watched s.entry.bytes.now input.now memory.old memory.new out out r result (Op.Take a) }
{
    let fits = (input.len() <= r.taken) | takes_integer(s, p, a);
    require(fits, Halt::WrongKind)?;
    take_input(input, memory, r, a)
}

pub fn put(memory: &[u64], output: &mut [u32], r: Registers, a: u8) -> Stepped
    requires sane { Sane (length memory.now) r }
    requires next_bound { r.next < 1000 }
    requires named { Named (variables_in r) (Op.Put a) }
    ensures { (s input : List ℕ) → Performs watched s input memory.now memory.now output.old output.new r result (Op.Put a) }
{
    let n = integer_in(parts(memory, r).frame, a);
    put_output(output, r, n)
}
