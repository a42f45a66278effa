// What an instruction says: its fields, and the operation that they are.
ghost use Rattle.std.specs.Prelude.{◌≡◌};
ghost use Rattle.sheet.specs.Decode.{decode, operation_at, instruction_in};

use crate::bytes::{byte, word};
use model::{Instruction, Operation};

// The fields of an IN.
#[derive(Clone, Copy)]
pub struct Fields {
    pub code: u8,
    pub a: u8,
    pub b: u8,
    pub c: u8,
    pub k: u16,
}

// By the table of codes; what no line has is read as a return.
impl From<Fields> for Operation {
    ghost from_gives = { λ f result. result ≡ decode f };

    fn from(f: Fields) -> Operation {
        match f.code {
            1 => Operation::Set(f.a, f.k),
            2 => Operation::Add(f.a, f.b, f.c),
            3 => Operation::Subtract(f.a, f.b, f.c),
            4 => Operation::Less(f.a, f.b, f.c),
            5 => Operation::JumpZero(f.a, f.k),
            6 => Operation::Bind(f.a, f.b),
            7 => Operation::Take(f.a),
            8 => Operation::Put(f.a),
            9 => Operation::NewArray(f.a, f.b),
            10 => Operation::Fetch(f.a, f.b, f.c),
            11 => Operation::Store(f.a, f.b, f.c),
            12 => Operation::Size(f.a, f.b),
            13 => Operation::NewRecord(f.a),
            14 => Operation::GetSlot(f.a, f.b, f.k),
            15 => Operation::SetSlot(f.a, f.b, f.k),
            16 => Operation::Call(f.a, f.b, f.k),
            _ => Operation::Return(f.a),
        }
    }
}

// The operation of the IN at a place.
pub fn operation_at(s: &[u8], at: usize) -> Operation
    ensures { result ≡ operation_at s.now at }
{
    Operation::from(Fields {
        code: byte(s, at, 2),
        a: byte(s, at, 3),
        b: byte(s, at, 4),
        c: byte(s, at, 5),
        k: word(s, at, 6),
    })
}

// Instruction i of procedure p, which stands at a place.
pub fn instruction_in(s: &[u8], p: usize, i: u16, at: usize) -> Instruction
    ensures { result ≡ instruction_in s.now p i at }
{
    let instruction = i as usize;
    Instruction {
        procedure: p,
        instruction,
        operation: operation_at(s, at),
    }
}
