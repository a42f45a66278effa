// Each operation: what it asks for (crate plain_plan), done (crate writers).
ghost use Rattle.std.specs.Prelude.{◌≡◌, List, ℕ, ◌<◌, length};
ghost use Rattle.model.specs.Modes.{plain};
ghost use Rattle.model.specs.declared.Operation.TheVariants as Op;
ghost use Rattle.sheet.specs.Layout.{slots_of, owner_at};
ghost use Rattle.form.specs.Named.{Named};
ghost use Rattle.writers.specs.Memory.{Sane, variables_in};
ghost use Rattle.frames.specs.Performs.{Performs, PerformsInside};

use index::procedures::place_in;
use model::arithmetic::Arithmetic;
use plain_plan::{
    arithmetic_of, array_size_of, fetch_of, get_of, integer_at, moved_at, set_at, store_at,
};
use sheet::bytes::byte;
use sheet::fields::field;
use sheet::places::type_at;
use writers::{
    Registers, Stepped, give_array, give_moved, give_number, give_record, jump, parts, put_output,
    store_cell, take_input,
};

pub fn set(memory: &mut [u64], r: Registers, a: u8, k: u16) -> Stepped
    requires sane { Sane (length memory.old) r }
    requires next_bound { r.next < 1000 }
    requires named { Named (variables_in r) (Op.Set a k) }
    ensures { (s : List ℕ) → PerformsInside plain s memory.old memory.new r result (Op.Set a k) }
{
    give_number(memory, r, a, Ok(k as u32))
}

// a := b op c, for the operations that make one integer of two.
pub fn arithmetic<A: Arithmetic>(memory: &mut [u64], r: Registers, a: u8, b: u8, c: u8) -> Stepped
    requires sane { Sane (length memory.old) r }
    requires next_bound { r.next < 1000 }
    requires named { (a < variables_in r) × ((b < variables_in r) × (c < variables_in r)) }
    ensures { (s : List ℕ) → PerformsInside plain s memory.old memory.new r result (A.operation a b c) }
{
    let n = arithmetic_of::<A>(parts(memory, r).frame, b, c);
    give_number(memory, r, a, n)
}

pub fn bind(memory: &mut [u64], r: Registers, a: u8, b: u8) -> Stepped
    requires sane { Sane (length memory.old) r }
    requires next_bound { r.next < 1000 }
    requires named { Named (variables_in r) (Op.Bind a b) }
    ensures { (s : List ℕ) → PerformsInside plain s memory.old memory.new r result (Op.Bind a b) }
{
    let m = moved_at(parts(memory, r).frame, b);
    give_moved(memory, r, a, m)
}

pub fn fetch(memory: &mut [u64], r: Registers, a: u8, b: u8, c: u8) -> Stepped
    requires sane { Sane (length memory.old) r }
    requires next_bound { r.next < 1000 }
    requires named { Named (variables_in r) (Op.Fetch a b c) }
    ensures { (s : List ℕ) → PerformsInside plain s memory.old memory.new r result (Op.Fetch a b c) }
{
    let m = fetch_of(parts(memory, r), b, c);
    give_moved(memory, r, a, m)
}

pub fn size(memory: &mut [u64], r: Registers, a: u8, b: u8) -> Stepped
    requires sane { Sane (length memory.old) r }
    requires next_bound { r.next < 1000 }
    requires named { Named (variables_in r) (Op.Size a b) }
    ensures { (s : List ℕ) → PerformsInside plain s memory.old memory.new r result (Op.Size a b) }
{
    let n = array_size_of(parts(memory, r), b);
    give_number(memory, r, a, n)
}

pub fn get_slot(memory: &mut [u64], r: Registers, a: u8, b: u8, k: u16) -> Stepped
    requires sane { Sane (length memory.old) r }
    requires next_bound { r.next < 1000 }
    requires named { Named (variables_in r) (Op.GetSlot a b k) }
    ensures { (s : List ℕ) → PerformsInside plain s memory.old memory.new r result (Op.GetSlot a b k) }
{
    let m = get_of(parts(memory, r), b, k);
    give_moved(memory, r, a, m)
}

pub fn store(memory: &mut [u64], r: Registers, a: u8, b: u8, c: u8) -> Stepped
    requires sane { Sane (length memory.old) r }
    requires next_bound { r.next < 1000 }
    requires named { Named (variables_in r) (Op.Store a b c) }
    ensures { (s : List ℕ) → PerformsInside plain s memory.old memory.new r result (Op.Store a b c) }
{
    let m = store_at(parts(memory, r), a, b, c);
    store_cell(memory, r, m)
}

pub fn set_slot(memory: &mut [u64], r: Registers, a: u8, b: u8, k: u16) -> Stepped
    requires sane { Sane (length memory.old) r }
    requires next_bound { r.next < 1000 }
    requires named { Named (variables_in r) (Op.SetSlot a b k) }
    ensures { (s : List ℕ) → PerformsInside plain s memory.old memory.new r result (Op.SetSlot a b k) }
{
    let m = set_at(parts(memory, r).frame, a, b, k);
    store_cell(memory, r, m)
}

pub fn new_array(memory: &mut [u64], r: Registers, a: u8, b: u8) -> Stepped
    requires sane { Sane (length memory.old) r }
    requires next_bound { r.next < 1000 }
    requires named { Named (variables_in r) (Op.NewArray a b) }
    ensures { (s : List ℕ) → PerformsInside plain s memory.old memory.new r result (Op.NewArray a b) }
{
    let n = integer_at(parts(memory, r).frame, b);
    give_array(memory, r, a, n)
}

pub fn jump_zero(memory: &[u64], r: Registers, a: u8, k: u16) -> Stepped
    requires sane { Sane (length memory.now) r }
    requires next_bound { r.next < 1000 }
    requires named { Named (variables_in r) (Op.JumpZero a k) }
    ensures { (s : List ℕ) → PerformsInside plain s memory.now memory.now r result (Op.JumpZero a k) }
{
    jump(r, integer_at(parts(memory, r).frame, a), k)
}

pub fn put(memory: &[u64], output: &mut [u32], r: Registers, a: u8) -> Stepped
    requires sane { Sane (length memory.now) r }
    requires next_bound { r.next < 1000 }
    requires named { Named (variables_in r) (Op.Put a) }
    ensures { (s input : List ℕ) → Performs plain s input memory.now memory.now output.old output.new r result (Op.Put a) }
{
    let n = integer_at(parts(memory, r).frame, a);
    put_output(output, r, n)
}

pub fn take(input: &[u32], memory: &mut [u64], r: Registers, a: u8) -> Stepped
    requires sane { Sane (length memory.old) r }
    requires next_bound { r.next < 1000 }
    requires named { Named (variables_in r) (Op.Take a) }
    ensures { (s out : List ℕ) → Performs plain s input.now memory.old memory.new out out r result (Op.Take a) }
{
    take_input(input, memory, r, a)
}

// How many slots the owner of the procedure at pr has.
#[tactic(auto, unfolding(sheet::specs::Layout::slots_of, sheet::specs::Layout::owner_at))]
fn owner_slots(s: &[u8], pr: u32) -> u8
    ensures { result ≡ slots_of s.now (owner_at s.now pr) }
{
    byte(s, type_at(field(s, pr, 2)), 3)
}

pub fn new_record(s: &[u8], memory: &mut [u64], r: Registers, a: u8) -> Stepped
    requires sane { Sane (length memory.old) r }
    requires next_bound { r.next < 1000 }
    requires named { Named (variables_in r) (Op.NewRecord a) }
    ensures { PerformsInside plain s.now memory.old memory.new r result (Op.NewRecord a) }
{
    let n = owner_slots(s, place_in(r.procedure));
    give_record(memory, r, a, n)
}
