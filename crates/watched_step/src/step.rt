// One instruction.
ghost use Rattle.std.specs.Prelude.{length};
ghost use Rattle.model.specs.Modes.{watched};
ghost use Rattle.sheet.specs.Decode.{operation_at};
ghost use Rattle.writers.specs.Memory.{Sane};
ghost use Rattle.frames.specs.Performs.{Performs};
ghost use Rattle.frames.specs.Fetch.{Fetchable, CodeOf, place_in};
ghost use Rattle.watched_calls.specs.Calls.{ScopeHere};

use form::FormedSheet;
use index::procedures::Scope;
use model::Operation;
use model::arithmetic::{Comparison, Difference, Sum};
use sheet::fetch::operation_whole;
use watched_calls::{call, give_back};
use watched_objects::{fetch, get_slot, new_array, new_record, set_slot, size, store};
use watched_values::{arithmetic, bind, jump_zero, put, set, take};
use writers::{Registers, Stepped};

// One instruction of the watched machine, in the scope of the running frame. Nothing with a branch stands between the operation and its match: the compiler
// then jumps straight from the code to the arm.
pub fn guarded_step(
    s: FormedSheet,
    code: &[u8],
    p: Scope,
    input: &[u32],
    memory: &mut [u64],
    output: &mut [u32],
    r: Registers,
) -> Stepped
    requires sane { Sane (length memory.old) r }
    requires fetchable { Fetchable s.sheet.bytes.now r }
    requires code_of { CodeOf s.sheet.bytes.now r code.now }
    requires scope_here { ScopeHere s.sheet.bytes.now memory.old r p }
    ensures { Performs watched s.entry.sheet.bytes.now input.now memory.old memory.new output.old output.new r result (operation_at s.entry.sheet.bytes.now (place_in r)) }
{
    match operation_whole(code, 8 * r.next) {
        Operation::Set(a, k) => set(s.sheet, p, memory, r, a, k),
        Operation::Add(a, b, c) => arithmetic::<Sum>(s.sheet, p, memory, r, a, b, c),
        Operation::Subtract(a, b, c) => arithmetic::<Difference>(s.sheet, p, memory, r, a, b, c),
        Operation::Less(a, b, c) => arithmetic::<Comparison>(s.sheet, p, memory, r, a, b, c),
        Operation::JumpZero(a, k) => jump_zero(memory, r, a, k),
        Operation::Bind(a, b) => bind(s.sheet, p, memory, r, a, b),
        Operation::Take(a) => take(s.sheet, p, input, memory, r, a),
        Operation::Put(a) => put(memory, output, r, a),
        Operation::NewArray(a, b) => new_array(s.sheet, p, memory, r, a, b),
        Operation::Fetch(a, b, c) => fetch(s.sheet, p, memory, r, a, b, c),
        Operation::Store(a, b, c) => store(s.sheet.index, memory, r, a, b, c),
        Operation::Size(a, b) => size(s.sheet, p, memory, r, a, b),
        Operation::NewRecord(a) => new_record(s.sheet, p, memory, r, a),
        Operation::GetSlot(a, b, k) => get_slot(s.sheet, p, memory, r, a, b, k),
        Operation::SetSlot(a, b, k) => set_slot(s.sheet, p, memory, r, a, b, k),
        Operation::Call(a, b, k) => call(s, p, memory, r, a, b, k),
        Operation::Return(a) => give_back(s, p, memory, r, a),
    }
}
