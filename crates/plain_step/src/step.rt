// One instruction.
ghost use Rattle.std.specs.Prelude.{length};
ghost use Rattle.model.specs.Modes.{plain};
ghost use Rattle.sheet.specs.Decode.{operation_at};
ghost use Rattle.writers.specs.Memory.{Sane};
ghost use Rattle.frames.specs.Performs.{Performs};
ghost use Rattle.frames.specs.Fetch.{Fetchable, CodeOf, place_in};

use crate::arms::{
    arithmetic, bind, fetch, get_slot, jump_zero, new_array, new_record, put, set, set_slot, size,
    store, take,
};
use form::FormedSheet;
use frames::{call, give_back};
use model::Operation;
use model::arithmetic::{Comparison, Difference, Sum};
use sheet::fetch::operation_whole;
use writers::{Registers, Stepped};

// The instruction is read from the running procedure's part of the sheet. Nothing with a branch stands between the operation and its match: the compiler
// then jumps straight from the code to the arm.
pub fn step(
    s: FormedSheet,
    code: &[u8],
    input: &[u32],
    memory: &mut [u64],
    output: &mut [u32],
    r: Registers,
) -> Stepped
    requires sane { Sane (length memory.old) r }
    requires fetchable { Fetchable s.sheet.bytes.now r }
    requires code_of { CodeOf s.sheet.bytes.now r code.now }
    ensures { Performs plain s.entry.sheet.bytes.now input.now memory.old memory.new output.old output.new r result (operation_at s.entry.sheet.bytes.now (place_in r)) }
{
    match operation_whole(code, 8 * r.next) {
        Operation::Set(a, k) => set(memory, r, a, k),
        Operation::Add(a, b, c) => arithmetic::<Sum>(memory, r, a, b, c),
        Operation::Subtract(a, b, c) => arithmetic::<Difference>(memory, r, a, b, c),
        Operation::Less(a, b, c) => arithmetic::<Comparison>(memory, r, a, b, c),
        Operation::JumpZero(a, k) => jump_zero(memory, r, a, k),
        Operation::Bind(a, b) => bind(memory, r, a, b),
        Operation::Take(a) => take(input, memory, r, a),
        Operation::Put(a) => put(memory, output, r, a),
        Operation::NewArray(a, b) => new_array(memory, r, a, b),
        Operation::Fetch(a, b, c) => fetch(memory, r, a, b, c),
        Operation::Store(a, b, c) => store(memory, r, a, b, c),
        Operation::Size(a, b) => size(memory, r, a, b),
        Operation::NewRecord(a) => new_record(s.sheet.bytes, memory, r, a),
        Operation::GetSlot(a, b, k) => get_slot(memory, r, a, b, k),
        Operation::SetSlot(a, b, k) => set_slot(memory, r, a, b, k),
        Operation::Call(a, b, k) => call(s, memory, r, a, b, k),
        Operation::Return(a) => give_back(memory, r, a),
    }
}
