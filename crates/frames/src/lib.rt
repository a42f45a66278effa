// Frames: opened by a call below the running one, given back by a return.
#![tactic(auto)]

ghost use Rattle.std.specs.Prelude.{◌≡◌, List, ℕ, ◌+◌, ◌-◌, ◌≤◌, ◌<◌, length, drop};
ghost use Rattle.model.specs.Qualified.{Qual};
ghost use Rattle.model.specs.Modes.{Mode, plain, watched, settled_set};
ghost use Rattle.model.specs.declared.Operation.TheVariants.{Call, Return};
ghost use Rattle.words.specs.Word.{back, slot_in};
ghost use Rattle.writers.specs.Memory.{Sane, variables_in};
ghost use Rattle.frames.specs.Performs.{PerformsInside};
ghost use Rattle.frames.specs.Frames.{Copies, Callable, Opened, Waits, KeptIn, SetIn, Keeps};

use form::FormedSheet;
use index::procedures::procedure_in;
use model::Halt;
use words::{
    back_kept, back_next, back_word, clear, filled, formals_in, low_of, read, variables_in, write,
};
use writers::{Next, Registers, Stepped, frame_end};

// The sheet from a procedure's first instruction on; nothing past its end.
pub fn instructions_of(s: &[u8], first: usize) -> &[u8]
    ensures { result.now ≡ drop first s.now }
{
    &s[first.min(s.len())..]
}

// n filled words are copied to a place below, up to the first that is blank.
fn copy_filled(memory: &mut [u64], from: usize, to: usize, n: usize) -> Result<(), Halt>
    requires n_bound { (to + n ≤ from) × (to + n ≤ length memory.old) }
    requires n_in_bounds { n ≤ length memory.old - from }
    ensures { Copies memory.old memory.new from to n result }
{
    for j in 0..n {
        let w = filled(memory[from + j])?;
        memory[to + j] = w;
    }
    Ok(())
}

// Where the running frame goes back, which waits behind a call that keeps variable a, for a frame with a set.
fn back_of(r: Registers, a: u8, set: u32) -> u64
    requires { r.next < 1000 }
    ensures { (m : Mode) (q : ℕ → Qual) → slot_in m q result ≡ back (r.next + 1) a (settled_set m set) }
{
    back_word((r.next + 1) as u32, a, set)
}

// The frame of the procedure of a word, with a set and v variables: the first f of them stand at its place already, the others are blank. The running frame
// waits behind a call that keeps variable a; 255 is none. The plain machine's frames have no set: it writes 0.
pub fn open(memory: &mut [u64], r: Registers, a: u8, w: u64, set: u32, v: usize, f: u8) -> Registers
    requires sane { Sane (length memory.old) r }
    requires next_bound { r.next < 1000 }
    requires v_bound { (v < 256) × (v + 2 ≤ r.base - r.used) }
    requires f_le_v { f ≤ v }
    ensures { (m : Mode) → Opened m memory.old memory.new r result a w set v f }
{
    let at = r.base - (v + 2);
    let rest = at + (f as usize);
    let end = at + v;
    clear(&mut memory[rest..end]);
    memory[end] = back_of(r, a, set);
    memory[end + 1] = r.procedure;
    Registers {
        procedure: w,
        next: 0,
        base: at,
        ..r
    }
}

// A call of procedure k with variables from b on, which keeps variable a: it asks for the room first, then for the actuals.
pub fn call(s: FormedSheet, memory: &mut [u64], r: Registers, a: u8, b: u8, k: u16) -> Stepped
    requires sane { Sane (length memory.old) r }
    requires callable { Callable s.sheet.bytes.now r a b k }
    ensures { PerformsInside plain s.entry.sheet.bytes.now memory.old memory.new r result (Call a b k) }
{
    let w = procedure_in(s.sheet.index, k as usize);
    let f = formals_in(w);
    let v = variables_in(w) as usize;
    if r.base - r.used < v + 2 {
        return Err(Halt::MemoryFull);
    }
    copy_filled(memory, r.base + (b as usize), r.base - (v + 2), f as usize)?;
    Ok(Next::Enter(open(memory, r, a, w, 0, v, f)))
}

// The registers of the frame that waits, where there is one.
pub fn waiting(memory: &[u64], r: Registers) -> Registers
    requires sane { Sane (length memory.now) r }
    requires r_in_bounds { r.base + (variables_in r + 2) < length memory.now }
    ensures waits { (m : Mode) → Waits m memory.now r result }
    ensures base_in_bounds { result.base < length memory.now }
{
    let end = frame_end(r);
    let place = memory[end];
    Registers {
        procedure: memory[end + 1],
        next: back_next(place) as usize,
        base: end + 2,
        ..r
    }
}

// The set of the running frame of the watched machine.
pub fn set_in(memory: &[u64], r: Registers) -> u32
    requires { r.base ≤ 65536 }
    ensures { SetIn watched memory.now r result }
{
    let end = frame_end(r);
    low_of(read(memory, end))
}

// The variable that the call of the frame that waits keeps, where there is one; 255 is none.
pub fn kept_in(memory: &[u64], r: Registers) -> u8
    requires { Sane (length memory.now) r }
    ensures { (m : Mode) → KeptIn m memory.now r result }
{
    let end = frame_end(r);
    back_kept(memory[end])
}

// Variable a of a frame becomes a word; one that it has not does not.
pub fn keep(memory: &mut [u64], b: Registers, a: u8, w: u64)
    requires { b.base < length memory.old }
    ensures { (m : Mode) → Keeps m memory.old memory.new b a w }
{
    if a < variables_in(b.procedure) {
        write(memory, b.base + (a as usize), w);
    }
}

// A return of variable a; 255 is none. Where the frame that waits keeps what is not there the definition is stuck.
pub fn give_back(memory: &mut [u64], r: Registers, a: u8) -> Stepped
    requires { Sane (length memory.old) r }
    ensures { (s : List ℕ) → PerformsInside plain s memory.old memory.new r result (Return a) }
{
    let end = frame_end(r);
    let w = read(&memory[r.base..end], a as usize);
    if w == 0 && a != 255 {
        return Err(Halt::Blank);
    }
    if memory.len() <= end + 2 {
        return Ok(Next::Done);
    }
    let back = waiting(memory, r);
    let kept = kept_in(memory, r);
    if kept != 255 {
        keep(memory, back, kept, w);
    }
    Ok(Next::Enter(back))
}
