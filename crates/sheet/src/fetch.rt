// The instruction at a place that stands whole, read with no test.
ghost use Rattle.std.specs.Prelude.{◌≡◌, ◌+◌, ◌≤◌, length};
ghost use Rattle.sheet.specs.Decode.{fields_at, operation_at};

use crate::bytes::word_whole;
use crate::decode::Fields;
use model::Operation;

pub fn fields_whole(s: &[u8], at: usize) -> Fields
    requires { at + 8 ≤ length s.now }
    ensures { result ≡ fields_at s.now at }
{
    Fields {
        code: s[at + 2],
        a: s[at + 3],
        b: s[at + 4],
        c: s[at + 5],
        k: word_whole(s, at, 6),
    }
}

// The operation, for the machines: each arm reads its own operands alone, which costs a run a fifth less than `Operation::from` on all the fields.
pub fn operation_whole(s: &[u8], at: usize) -> Operation
    requires { at + 8 ≤ length s.now }
    ensures { result ≡ operation_at s.now at }
{
    let code = s[at + 2];
    match code {
        1 => Operation::Set(s[at + 3], word_whole(s, at, 6)),
        2 => Operation::Add(s[at + 3], s[at + 4], s[at + 5]),
        3 => Operation::Subtract(s[at + 3], s[at + 4], s[at + 5]),
        4 => Operation::Less(s[at + 3], s[at + 4], s[at + 5]),
        5 => Operation::JumpZero(s[at + 3], word_whole(s, at, 6)),
        6 => Operation::Bind(s[at + 3], s[at + 4]),
        7 => Operation::Take(s[at + 3]),
        8 => Operation::Put(s[at + 3]),
        9 => Operation::NewArray(s[at + 3], s[at + 4]),
        10 => Operation::Fetch(s[at + 3], s[at + 4], s[at + 5]),
        11 => Operation::Store(s[at + 3], s[at + 4], s[at + 5]),
        12 => Operation::Size(s[at + 3], s[at + 4]),
        13 => Operation::NewRecord(s[at + 3]),
        14 => Operation::GetSlot(s[at + 3], s[at + 4], word_whole(s, at, 6)),
        15 => Operation::SetSlot(s[at + 3], s[at + 4], word_whole(s, at, 6)),
        16 => Operation::Call(s[at + 3], s[at + 4], word_whole(s, at, 6)),
        _ => Operation::Return(s[at + 3]),
    }
}
