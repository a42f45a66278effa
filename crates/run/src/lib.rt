// A run of any bytes: check them, then a machine in the lent memory.
#![tactic(auto)]

ghost use Rattle.std.specs.Prelude.{◌≡◌, ◌≤◌, length};
ghost use Rattle.std.proofs.Math.Option.{some};
ghost use Rattle.model.specs.Modes.{plain, watched};
ghost use Rattle.model.specs.Outcome.{stop_number};
ghost use Rattle.model.specs.Refusal.{Accepted, refusal_number};
ghost use Rattle.run_by_frames.specs.Reply.{ending_stop};
ghost use Rattle.run_by_frames.specs.Turn.{NeverStuck};
ghost use Rattle.run.specs.Run.{answered, refused, stopped_at, end, answer_by, answer};

use checking::check_indexed;
use form::FormedSheet;
use index::make::indexed;
use index::sheets::AnySheet;
use model::{Reason, Refusal};
use run_by_frames::Ended;
use run_by_frames::machine::{Machine, Plain, Watched};
use run_by_frames::run::run_in;
use well_formed::well_formed;
use words::clear;

// What a run says: the number and place of a refusal; or the number of the stop, steps, words put, procedure and instruction. One struct of numbers, as C
// reads it.
#[derive(Clone, Copy)]
pub struct Reply {
    pub number: u64,
    pub place: u64,
    pub steps: u64,
    pub put: u64,
    pub procedure: u64,
    pub instruction: u64,
}

impl From<Refusal> for Reply {
    ghost from_gives = { λ r reply. reply ≡ refused (refusal_number r.reason) r.place };

    fn from(r: Refusal) -> Reply {
        Reply {
            number: u64::from(r.reason.number()),
            place: r.place as u64,
            steps: 0,
            put: 0,
            procedure: 0,
            instruction: 0,
        }
    }
}

impl From<Ended> for Reply {
    ghost from_gives = { λ e reply. reply ≡ stopped_at (stop_number (ending_stop e.ending)) e.steps e.put e.procedure e.instruction };

    fn from(e: Ended) -> Reply {
        Reply {
            number: u64::from(e.ending.number()),
            place: 0,
            steps: e.steps,
            put: e.put as u64,
            procedure: e.procedure as u64,
            instruction: e.instruction as u64,
        }
    }
}

// The run of a sheet that is not refused: 10 and nothing touched, or the machine's stop. A function of its own, so that the loop over the steps has the registers
// that the check before it would take: a watched step makes 37 instructions, inlined 48.
#[inline(never)]
fn run_lent<M: Machine>(
    s: FormedSheet,
    input: &[u32],
    fuel: u64,
    memory: &mut [u64],
    output: &mut [u32],
) -> Reply
    requires { length memory.old ≤ 65536 → NeverStuck (end M.mode s.sheet.bytes.now input.now fuel memory.old output.old) }
    ensures { answer_by M.mode s.entry.sheet.bytes.now input.now fuel memory.old output.old Accepted ≡ some (answered result memory.new output.new) }
{
    if 65536 < memory.len() {
        return Reply::from(Reason::BigMemory.at(0));
    }
    let e = run_in::<M>(s, input, fuel, memory, output);
    clear(memory);
    Reply::from(e)
}

// Refuses with 1 to 10 and touches neither memory nor output, or runs and stops with 11 to 17.
pub fn run(sheet: &[u8], input: &[u32], fuel: u64, memory: &mut [u64], output: &mut [u32]) -> Reply
    ensures { answer plain sheet.now input.now fuel memory.old output.old ≡ some (answered result memory.new output.new) }
{
    let index = indexed(sheet);
    match check_indexed(AnySheet::new(sheet, &index)) {
        Ok(s) => run_lent::<Plain>(s, input, fuel, memory, output),
        Err(refusal) => Reply::from(refusal),
    }
}

// Refuses with 1 to 5 and 10 and touches neither memory nor output, or runs any well-formed sheet with every test and stops with 11 to 19.
pub fn watch(
    sheet: &[u8],
    input: &[u32],
    fuel: u64,
    memory: &mut [u64],
    output: &mut [u32],
) -> Reply
    ensures { answer watched sheet.now input.now fuel memory.old output.old ≡ some (answered result memory.new output.new) }
{
    let index = indexed(sheet);
    match well_formed(AnySheet::new(sheet, &index)) {
        Ok(s) => run_lent::<Watched>(s, input, fuel, memory, output),
        Err(refusal) => Reply::from(refusal),
    }
}
