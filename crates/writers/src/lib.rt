// What an instruction asks for, done in the lent memory: each kind of effect has one writer. A writer that stops changes nothing.
#![tactic(auto)]

ghost use Rattle.std.specs.Prelude.{◌≡◌, List, ℕ, ◌+◌, ◌-◌, ◌≤◌, ◌<◌, length, drop, set};
ghost use Rattle.model.specs.Qualified.{Qual};
ghost use Rattle.model.specs.Modes.{Mode, plain};
ghost use Rattle.model.specs.Machine.{first_of};
ghost use Rattle.sheet.specs.Meaning.{qual_of};
ghost use Rattle.words.specs.Answers.{MovedOk, StoredOk, given, moved_to, stored};
ghost use Rattle.writers.specs.Memory.{Given, Sane, variables_in, frame_part, object_part};
ghost use Rattle.writers.specs.Steps.{Does, onward, at_next, Allotted, jumped, put_effect, take_effect, array_effect, record_effect};

use model::Halt;
use words::{
    Parts, Stored, array_word, clear, integer_word, object_word, record_word, variables_in, write,
};

// The registers: the word of the running procedure, its next instruction and where its variables start in the memory; where the objects end; the input
// words taken, the output words put and the steps made, which no writer counts.
#[derive(Clone, Copy)]
pub struct Registers {
    pub procedure: u64,
    pub next: usize,
    pub base: usize,
    pub used: usize,
    pub taken: usize,
    pub put: usize,
    pub steps: u64,
}

// What follows a step: another instruction, with all other registers as they were, which is what most steps do and a loop can lean on; any other
// registers; or nothing, after main's return.
#[derive(Clone, Copy)]
pub enum Next {
    Go(Registers),
    Enter(Registers),
    Done,
}

// What a step came to.
pub type Stepped = Result<Next, Halt>;

// The registers at another instruction of the same frame.
pub fn at_next(r: Registers, next: usize) -> Registers
    ensures { result ≡ at_next r next }
{
    Registers { next, ..r }
}

// Where the running frame's variables end in the memory.
pub fn frame_end(r: Registers) -> usize
    requires { r.base ≤ 65536 }
    ensures { result ≡ r.base + variables_in r }
{
    r.base + (variables_in(r.procedure) as usize)
}

// What the running instruction reads.
pub fn parts<'a>(memory: &'a [u64], r: Registers) -> Parts<'a>
    requires { Sane (length memory.now) r }
    ensures frame { result.frame.now ≡ frame_part r memory.entry.now }
    ensures objects { result.objects.now ≡ object_part r memory.entry.now }
    ensures variables { length result.frame.now ≡ variables_in r }
{
    Parts {
        frame: &memory[r.base..frame_end(r)],
        objects: &memory[..r.used],
    }
}

// Variable a of the running frame becomes a word. The frame's part is lent whole, so that a loop holds its place in one register.
pub fn put_variable(memory: &mut [u64], r: Registers, a: u8, w: u64)
    requires sane { Sane (length memory.old) r }
    requires a_bound { a < variables_in r }
    ensures { memory.new ≡ set memory.old (r.base + a) w }
{
    let end = frame_end(r);
    let frame = &mut memory[r.base..end];
    frame[a as usize] = w;
}

// Variable a becomes an integer.
pub fn give_number(memory: &mut [u64], r: Registers, a: u8, n: Result<u32, Halt>) -> Stepped
    requires sane { Sane (length memory.old) r }
    requires next_bound { r.next < 1000 }
    requires a_bound { a < variables_in r }
    ensures { (mode : Mode) (c : Given) (out : List ℕ) → Does mode c memory.old memory.new out out r result (given mode a n) }
{
    let x = n?;
    put_variable(memory, r, a, integer_word(x));
    Ok(Next::Go(at_next(r, r.next + 1)))
}

// Variable a becomes a moved cell; where the definition is stuck the word may be none's.
pub fn give_moved(memory: &mut [u64], r: Registers, a: u8, m: Result<u64, Halt>) -> Stepped
    requires sane { Sane (length memory.old) r }
    requires next_bound { r.next < 1000 }
    requires a_bound { a < variables_in r }
    ensures { (mode : Mode) (c : Given) (out : List ℕ) → MovedOk m → Does mode c memory.old memory.new out out r result (moved_to mode (qual_of c.sheet) a m) }
{
    let w = m?;
    put_variable(memory, r, a, w);
    Ok(Next::Go(at_next(r, r.next + 1)))
}

// A cell of an object becomes a moved cell; where the definition is stuck there may be no such cell.
pub fn store_cell(memory: &mut [u64], r: Registers, m: Result<Stored, Halt>) -> Stepped
    requires sane { Sane (length memory.old) r }
    requires next_bound { r.next < 1000 }
    ensures { (mode : Mode) (c : Given) (out : List ℕ) → StoredOk (object_part r memory.old) m → Does mode c memory.old memory.new out out r result (stored mode (qual_of c.sheet) m) }
{
    let s = m?;
    write(
        &mut memory[..r.used],
        (s.object as usize) + 1 + (s.cell as usize),
        s.word,
    );
    Ok(Next::Go(at_next(r, r.next + 1)))
}

// To instruction k if the integer is zero, else to the next.
pub fn jump(r: Registers, n: Result<u32, Halt>, k: u16) -> Stepped
    requires { r.next < 1000 }
    ensures { (mode : Mode) (c : Given) (words out : List ℕ) → Does mode c words words out out r result (jumped mode k n) }
{
    let x = n?;
    if x == 0 {
        return Ok(Next::Go(at_next(r, k as usize)));
    }
    Ok(Next::Go(at_next(r, r.next + 1)))
}

// The next output word becomes an integer.
pub fn put_output(output: &mut [u32], r: Registers, n: Result<u32, Halt>) -> Stepped
    requires { r.next < 1000 }
    ensures { (mode : Mode) (c : Given) (words : List ℕ) → Does mode c words words output.old output.new r result (put_effect mode (length output.old - r.put) n) }
{
    let x = n?;
    let at = r.put;
    if output.len() <= at {
        return Err(Halt::OutputFull);
    }
    output[at] = x;
    Ok(Next::Enter(Registers {
        next: r.next + 1,
        put: at + 1,
        ..r
    }))
}

// Variable a becomes the next input word.
pub fn take_input(input: &[u32], memory: &mut [u64], r: Registers, a: u8) -> Stepped
    requires sane { Sane (length memory.old) r }
    requires next_bound { r.next < 1000 }
    requires a_bound { a < variables_in r }
    ensures { (mode : Mode) (c : Given) (out : List ℕ) → Does mode c memory.old memory.new out out r result (take_effect mode a (first_of (drop r.taken input.now))) }
{
    let at = r.taken;
    if input.len() <= at {
        return Err(Halt::InputEnded);
    }
    put_variable(memory, r, a, integer_word(input[at]));
    Ok(Next::Enter(Registers {
        next: r.next + 1,
        taken: at + 1,
        ..r
    }))
}

// A new object with a head and n blank cells, after the others; variable a becomes `name`.
pub fn allot(memory: &mut [u64], r: Registers, a: u8, head: u64, n: u32, name: u64) -> Registers
    requires sane { Sane (length memory.old) r }
    requires next_bound { r.next < 1000 }
    requires a_bound { a < variables_in r }
    requires n_bound { r.used + (n + 1) ≤ r.base }
    ensures value { result ≡ onward r (r.next + 1) (r.used + (n + 1)) r.taken r.put }
    ensures allotted { (mode : Mode) (qual : ℕ → Qual) → Allotted mode qual memory.old memory.new r a head n name }
{
    let cells = r.used + 1;
    let end = cells + (n as usize);
    memory[r.used] = head;
    clear(&mut memory[cells..end]);
    put_variable(memory, r, a, name);
    Registers {
        next: r.next + 1,
        used: end,
        ..r
    }
}

// A new array, or a new record, of the plain machine, whatever its type.
pub fn give_array(memory: &mut [u64], r: Registers, a: u8, n: Result<u32, Halt>) -> Stepped
    requires sane { Sane (length memory.old) r }
    requires next_bound { r.next < 1000 }
    requires a_bound { a < variables_in r }
    ensures { (c : Given) (out : List ℕ) (q : Qual) → Does plain c memory.old memory.new out out r result (array_effect plain (r.base - r.used) a q n) }
{
    let x = n?;
    if r.base - r.used <= (x as usize) {
        return Err(Halt::MemoryFull);
    }
    let name = object_word(r.used as u32, 0);
    Ok(Next::Enter(allot(memory, r, a, array_word(x, 0, 2, 0), x, name)))
}

pub fn give_record(memory: &mut [u64], r: Registers, a: u8, slots: u8) -> Stepped
    requires sane { Sane (length memory.old) r }
    requires next_bound { r.next < 1000 }
    requires a_bound { a < variables_in r }
    ensures { (c : Given) (out : List ℕ) (q : Qual) (t named : ℕ) → Does plain c memory.old memory.new out out r result (record_effect plain (r.base - r.used) a q t named slots) }
{
    let n = slots as u32;
    if r.base - r.used <= (n as usize) {
        return Err(Halt::MemoryFull);
    }
    let name = object_word(r.used as u32, 0);
    Ok(Next::Enter(allot(memory, r, a, record_word(n, 0), n, name)))
}
