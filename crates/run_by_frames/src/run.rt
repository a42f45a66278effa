// A run: main's frame is opened at the end of the memory, then one frame after another to the stop, or to a number of steps.
ghost use Rattle.std.specs.Prelude.{◌≡◌, List, ℕ, ◌+◌, ◌≤◌, ◌<◌, length};
ghost use Rattle.model.specs.Modes.{Mode};
ghost use Rattle.model.specs.Run.{run, opened};
ghost use Rattle.sheet.specs.Layout.{variables_field, procedure_at};
ghost use Rattle.sheet.specs.Meaning.{program_of};
ghost use Rattle.writers.specs.Memory.{StandsFor, number_in};
ghost use Rattle.frames.specs.Fetch.{CodeOf};
ghost use Rattle.run_by_frames.specs.Reply.{EndedIs};
ghost use Rattle.run_by_frames.specs.Turn.{NeverStuck, Begun, FrameRuns, RunsUntil};

use crate::machine::Machine;
use crate::{Ended, Ending, Halted, Paused};
use form::FormedSheet;
use frames::instructions_of;
use index::procedures::procedure_in;
use lent_step::count;
use model::Halt;
use words::{clear, first_in, number_in, variables_in};
use writers::{Next, Registers};

// Main's frame, at the end of the memory; no frame waits for it.
fn open_main(s: FormedSheet, memory: &mut [u64], v: usize) -> Registers
    requires v_value { (v ≡ variables_field s.sheet.bytes.now (procedure_at s.sheet.bytes.now 0)) × (v < 256) }
    requires v_in_bounds { (v + 2 ≤ length memory.old) × (length memory.old ≤ 65536) }
    ensures steps_value { result.steps ≡ 0 }
    ensures stands_for { (m : Mode) (input out : List ℕ) → StandsFor m (record { sheet = s.entry.sheet.bytes.now; input = input; output = out }) memory.new out result (opened m (program_of s.entry.sheet.bytes.now) (length memory.old) (length out) input) }
{
    let len = memory.len();
    let at = len - (v + 2);
    clear(&mut memory[at..len]);
    Registers {
        procedure: procedure_in(s.sheet.index, 0),
        next: 0,
        base: at,
        used: 0,
        taken: 0,
        put: 0,
        steps: 0,
    }
}

fn ended(ending: Ending, r: Registers) -> Ended
    ensures { result ≡ record { ending = ending; steps = r.steps; put = r.put; procedure = number_in r; instruction = r.next } }
{
    Ended {
        ending,
        steps: r.steps,
        put: r.put,
        procedure: number_in(r.procedure) as usize,
        instruction: r.next,
    }
}

// The run of one frame: to other registers, to a number of steps, or to the end. Only the next instruction and the count of steps change in it, which is what
// makes the loop fast.
fn run_frame<M: Machine>(
    s: FormedSheet,
    code: &[u8],
    input: &[u32],
    memory: &mut [u64],
    output: &mut [u32],
    start: Registers,
    until: u64,
) -> Paused
    requires code_of { CodeOf s.sheet.bytes.now start code.now }
    requires begun { Begun M.mode s.sheet.bytes.now input.now until memory.old output.old start }
    ensures { FrameRuns M.mode s.entry.sheet.bytes.now input.now until memory.old memory.new output.old output.new start result }
{
    let p = M::scope(s, memory, start);
    let mut r = start;
    while r.steps < until {
        match M::turn(s, code, p, input, memory, output, r) {
            Ok(Next::Go(q)) => {
                r = Registers {
                    next: q.next,
                    steps: r.steps + 1,
                    ..start
                };
            }
            Ok(Next::Enter(q)) => {
                return Paused::Enter(count(r, q));
            }
            Ok(Next::Done) => {
                return Paused::End(ended(Ending::Done, count(r, r)));
            }
            Err(k) => {
                return Paused::End(ended(Ending::Halted(k), r));
            }
        }
    }
    Paused::Rest(r)
}

// From registers and memory that stand where a run does, to where it stands after `until` steps, or to its end. No index is counted: a frame's run tells what
// comes next.
pub fn run_until<M: Machine>(
    s: FormedSheet,
    input: &[u32],
    memory: &mut [u64],
    output: &mut [u32],
    start: Registers,
    until: u64,
) -> Halted
    requires begun { Begun M.mode s.sheet.bytes.now input.now until memory.old output.old start }
    ensures { RunsUntil M.mode s.entry.sheet.bytes.now input.now until memory.old memory.new output.old output.new start result }
{
    let mut r = start;
    loop {
        let code = instructions_of(s.sheet.bytes, first_in(r.procedure) as usize);
        match run_frame::<M>(s, code, input, memory, output, r, until) {
            Paused::Enter(q) => {
                r = q;
            }
            Paused::Rest(q) => {
                return Halted::Rest(q);
            }
            Paused::End(e) => {
                return Halted::End(e);
            }
        }
    }
}

// A run of a sheet that is never stuck, in a memory of at most 65,536 words, which holds nothing of account before or after.
pub fn run_in<M: Machine>(
    s: FormedSheet,
    input: &[u32],
    fuel: u64,
    memory: &mut [u64],
    output: &mut [u32],
) -> Ended
    requires memory_len_bound { length memory.old ≤ 65536 }
    requires never_stuck { NeverStuck (run M.mode (program_of s.sheet.bytes.now) (length memory.old) (length output.old) input.now fuel) }
    ensures { EndedIs result output.old output.new (run M.mode (program_of s.entry.sheet.bytes.now) (length memory.old) (length output.old) input.now fuel) }
{
    let v = variables_in(procedure_in(s.sheet.index, 0)) as usize;
    if memory.len() < v + 2 {
        return Ended {
            ending: Ending::Halted(Halt::MemoryFull),
            steps: 0,
            put: 0,
            procedure: 0,
            instruction: 0,
        };
    }
    let start = open_main(s, memory, v);
    match run_until::<M>(s, input, memory, output, start, fuel) {
        Halted::Rest(r) => ended(Ending::FuelSpent, r),
        Halted::End(e) => e,
    }
}
