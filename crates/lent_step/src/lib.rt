// One step of the plain machine, counted unless it stops: by value, and of registers lent by `&mut`.
#![tactic(auto)]

ghost use Rattle.std.specs.Prelude.{◌≡◌, ◌+◌, ◌<◌, ◌^◌};
ghost use Rattle.model.specs.Modes.{plain};
ghost use Rattle.lent_step.specs.Counts.{Steppable, TurnIs, counted, turned, after_turn};

use form::FormedSheet;
use plain_step::step::step;
use writers::{Next, Registers, Stepped};

// The registers q, one step after r.
pub fn count(r: Registers, q: Registers) -> Registers
    requires { r.steps + 1 < 2 ^ 64 }
    ensures { result ≡ counted r q }
{
    Registers {
        steps: r.steps + 1,
        ..q
    }
}

// What a step from r came to, counted where the run goes on.
pub fn count_step(r: Registers, o: Stepped) -> Stepped
    requires { r.steps + 1 < 2 ^ 64 }
    ensures { result ≡ turned r o }
{
    match o? {
        Next::Go(q) => Ok(Next::Go(count(r, q))),
        Next::Enter(q) => Ok(Next::Enter(count(r, q))),
        Next::Done => Ok(Next::Done),
    }
}

// The registers after a step from r. "A step that stops changes nothing and isn't counted; the return giving 11 is."
fn after_step(r: Registers, o: Stepped) -> Registers
    requires { r.steps + 1 < 2 ^ 64 }
    ensures { result ≡ after_turn r o }
{
    match o {
        Ok(Next::Go(q) | Next::Enter(q)) => q,
        Ok(Next::Done) => count(r, r),
        Err(_) => r,
    }
}

// A step, by value.
fn step_counted(
    s: FormedSheet,
    code: &[u8],
    input: &[u32],
    memory: &mut [u64],
    output: &mut [u32],
    r: Registers,
) -> Stepped
    requires { Steppable s.sheet.bytes.now code.now memory.old r }
    ensures { TurnIs plain s.entry.sheet.bytes.now input.now memory.old memory.new output.old output.new r result }
{
    let o = step(s, code, input, memory, output, r);
    count_step(r, o)
}

// A step of the lent registers.
pub fn step_lent(
    s: FormedSheet,
    code: &[u8],
    input: &[u32],
    memory: &mut [u64],
    output: &mut [u32],
    r: &mut Registers,
) -> Stepped
    requires { Steppable s.sheet.bytes.now code.now memory.old r.old }
    ensures { TurnIs plain s.entry.sheet.bytes.now input.now memory.old memory.new output.old output.new r.old result × (r.new ≡ after_turn r.old result) }
{
    let o = step_counted(s, code, input, memory, output, *r);
    *r = after_step(*r, o);
    o
}

// The same on registers by value, as a loop holds them.
pub fn step_by(
    s: FormedSheet,
    code: &[u8],
    input: &[u32],
    memory: &mut [u64],
    output: &mut [u32],
    r: Registers,
) -> Stepped
    requires { Steppable s.sheet.bytes.now code.now memory.old r }
    ensures { TurnIs plain s.entry.sheet.bytes.now input.now memory.old memory.new output.old output.new r result }
{
    let mut q = r;
    step_lent(s, code, input, memory, output, &mut q)
}
