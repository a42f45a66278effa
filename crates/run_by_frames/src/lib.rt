// A whole run inside the lent memory, one frame after another.
#![tactic(auto)]

pub mod machine; // the plain machine and the watched one
pub mod run; // from main's frame to the stop, or to a number of steps

ghost use Rattle.std.specs.Prelude.{◌≡◌};
ghost use Rattle.model.specs.Outcome.{stop_number};
ghost use Rattle.run_by_frames.specs.Reply.{ending_stop};

use model::Halt;
use writers::Registers;

// Why a run ended.
#[derive(Clone, Copy, Debug, PartialEq, Eq)]
pub enum Ending {
    Done,
    FuelSpent,
    Halted(Halt),
}

impl Ending {
    pub fn number(self) -> u8
        ensures { result ≡ stop_number (ending_stop self) }
    {
        match self {
            Ending::Done => 11,
            Ending::FuelSpent => 12,
            Ending::Halted(k) => k.number(),
        }
    }
}

// How a run ended: why, steps, words put, procedure and instruction.
#[derive(Clone, Copy)]
pub struct Ended {
    pub ending: Ending,
    pub steps: u64,
    pub put: usize,
    pub procedure: usize,
    pub instruction: usize,
}

// What the run of a frame came to: other registers, a rest, or the end.
#[derive(Clone, Copy)]
pub enum Paused {
    Enter(Registers),
    Rest(Registers),
    End(Ended),
}

// What a run to a number of steps came to: a rest, from which it can go on, or the end. Neither is an error.
#[derive(Clone, Copy)]
pub enum Halted {
    Rest(Registers),
    End(Ended),
}
