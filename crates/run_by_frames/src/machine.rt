// The two machines, told apart by a type, so that each run is compiled for its own machine alone.
ghost use Rattle.std.specs.Prelude.{length};
ghost use Rattle.model.specs.Modes.{Mode, plain, watched};
ghost use Rattle.writers.specs.Memory.{Sane};
ghost use Rattle.lent_step.specs.Counts.{Steppable, TurnIs, turned};
ghost use Rattle.run_by_frames.specs.Turn.{ScopeFor};

use form::FormedSheet;
use frames::set_in;
use index::procedures::{Scope, frame_scope};
use lent_step::step_by;
use watched_step::step::guarded_step;
use writers::{Registers, Stepped};

pub trait Machine {
    ghost mode: { Mode };

    // The scope of the running frame, which is the same as long as the frame runs on.
    fn scope(s: FormedSheet, memory: &[u64], r: Registers) -> Scope
        requires { Sane (length memory.now) r }
        ensures { ScopeFor mode s.entry.sheet.bytes.now memory.now r result };

    // One step, in the scope of the running frame. The plain machine's counts itself, the watched one's does not: the caller counts either.
    fn turn(
        s: FormedSheet,
        code: &[u8],
        p: Scope,
        input: &[u32],
        memory: &mut [u64],
        output: &mut [u32],
        r: Registers,
    ) -> Stepped
        requires steppable { Steppable s.sheet.bytes.now code.now memory.old r }
        requires scope_for { ScopeFor mode s.sheet.bytes.now memory.old r p }
        ensures { TurnIs mode s.entry.sheet.bytes.now input.now memory.old memory.new output.old output.new r (turned r result) };
}

pub struct Plain;

impl Machine for Plain {
    ghost mode = { plain };

    // No step of it reads a scope.
    fn scope(_s: FormedSheet, _memory: &[u64], _r: Registers) -> Scope {
        Scope {
            head: 0,
            start: 0,
            name: 0,
        }
    }

    fn turn(
        s: FormedSheet,
        code: &[u8],
        _p: Scope,
        input: &[u32],
        memory: &mut [u64],
        output: &mut [u32],
        r: Registers,
    ) -> Stepped {
        step_by(s, code, input, memory, output, r)
    }
}

pub struct Watched;

impl Machine for Watched {
    ghost mode = { watched };

    fn scope(s: FormedSheet, memory: &[u64], r: Registers) -> Scope {
        frame_scope(s.sheet.bytes, r.procedure, set_in(memory, r))
    }

    fn turn(
        s: FormedSheet,
        code: &[u8],
        p: Scope,
        input: &[u32],
        memory: &mut [u64],
        output: &mut [u32],
        r: Registers,
    ) -> Stepped {
        guarded_step(s, code, p, input, memory, output, r)
    }
}
