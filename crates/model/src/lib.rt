// The answers and the operations that every layer speaks of. Their meaning is in specs/.
#![tactic(auto)]

pub mod arithmetic; // the three operations that make one integer of two

ghost use Rattle.std.specs.Prelude.{◌≡◌, cond};
ghost use Rattle.model.specs.Outcome.{stop_number, stop_of};
ghost use Rattle.model.specs.Refusal.{Accepted, refusal_number, refused_at, refuse};

// Why a sheet is refused. Its number is the paper's.
#[derive(Clone, Copy, Debug, PartialEq, Eq)]
pub enum Reason {
    Overlong = 1,
    Torn = 2,
    StrayMark = 3,
    BadEdition = 4,
    OffScale = 5,
    OpenExposed = 6,
    FalseRaise = 7,
    TypeMismatch = 8,
    InsufficientRights = 9,
    BigMemory = 10,
    Unsettled = 20,
    ShortSet = 21,
}

impl Reason {
    pub fn number(self) -> u8
        ensures { result ≡ refusal_number self }
    {
        self as u8
    }

    // The refusal of the record that starts at a byte.
    pub fn at(self, place: usize) -> Refusal
        ensures { result ≡ refused_at self place }
    {
        Refusal {
            reason: self,
            place,
        }
    }
}

// A refusal, with the byte at which the refused record starts.
#[derive(Clone, Copy, Debug, PartialEq, Eq)]
pub struct Refusal {
    pub reason: Reason,
    pub place: usize,
}

// What a check says: accepted, or refused.
pub type Verdict = Result<(), Refusal>;

// The verdict on the record that starts at a byte, by the reason of its first test that fails.
#[tactic(auto, unfolding(crate::specs::Refusal::refuse))]
pub fn record_verdict(rule: Result<(), Reason>, at: usize) -> Verdict
    ensures { result ≡ refuse rule at Accepted }
{
    rule.map_err(|reason| reason.at(at))
}

// An error where a test does not hold.
pub fn require<E: Copy>(holds: bool, error: E) -> Result<(), E>
    ensures { result ≡ cond holds (Ok tt) (Err error) }
{
    if holds { Ok(()) } else { Err(error) }
}

// Why a step stops a run. Its number is the paper's.
#[derive(Clone, Copy, Debug, PartialEq, Eq)]
pub enum Halt {
    Blank = 13,
    PastEnd = 14,
    InputEnded = 15,
    OutputFull = 16,
    MemoryFull = 17,
    WrongKind = 18,
    MissingRight = 19,
}

impl Halt {
    pub fn number(self) -> u8
        ensures { result ≡ stop_number (stop_of self) }
    {
        self as u8
    }
}

// One of seventeen kinds of work. a, b and c are variables, k a number; 255 as a variable is none, as it stands in the format's
// bytes and in `optional`.
#[derive(Clone, Copy)]
pub enum Operation {
    Set(u8, u16), // a := k
    Add(u8, u8, u8), // a := b + c, modulo 2^32
    Subtract(u8, u8, u8), // a := b - c, modulo 2^32
    Less(u8, u8, u8), // a := 1 if b < c, else 0
    JumpZero(u8, u16), // if a is zero go to instruction k
    Bind(u8, u8), // a <- b
    Take(u8), // a <- the next input word
    Put(u8), // the next output word := a
    NewArray(u8, u8), // a <- new array of size b
    Fetch(u8, u8, u8), // a <- b[c]
    Store(u8, u8, u8), // a[b] <- c
    Size(u8, u8), // a <- size of b
    NewRecord(u8), // a <- new record of the owner's type
    GetSlot(u8, u8, u16), // a <- slot k of b
    SetSlot(u8, u8, u16), // slot k of a <- b
    Call(u8, u8, u16), // a <- procedure k with variables b, b + 1 and so on; a 255: drop the result
    Return(u8), // return a; 255: no value
}

// An operation with its place: procedure and instruction numbers.
#[derive(Clone, Copy)]
pub struct Instruction {
    pub procedure: usize,
    pub instruction: usize,
    pub operation: Operation,
}
