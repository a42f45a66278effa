// The index, from any bytes.
ghost use Rattle.std.specs.Prelude.{◌≡◌, suc, ◌+◌, ◌*◌, ◌<◌, ◌^◌, cond, eqb, length};
ghost use Rattle.sheet.specs.Layout.{procedure_at};
ghost use Rattle.index.specs.Types.{use_in, UseTold};
ghost use Rattle.index.specs.Indexed.{TypeWord, ProcedureWord, TypesFilled, ProceduresFilled, Indexed};

use crate::Index;
use crate::types::{element_in, is_array_type, is_generic_type, uses_name};
use sheet::bytes::{byte, word};
use sheet::edition::Encoded;
use sheet::places::{bound_size, instruction_from, qual_at, start_from};
use sheet::quals::qual_fields;
use words::procedure_word;

// The word of the QT of number j, as its record says.
fn record_entry(e: Encoded, j: u8) -> u64
    ensures type_word { TypeWord e.entry.bytes.now j result }
    ensures upper_bound { result < 2 ^ 49 }
{
    let q = qual_fields(e, qual_at(e, j));
    shape_and_rights(q.base, q.rights) + 2199023255552 * (q.element as u64)
}

// A base as a shape, with rights: 255 is ?R, which has none.
fn shape_and_rights(base: u8, rights: u32) -> u64
    ensures { result ≡ cond (eqb base 255) (511 * 2 ^ 32) (base * 2 ^ 32 + rights) }
{
    if base == 255 {
        return 2194728288256;
    }
    (base as u64) * 4294967296 + u64::from(rights)
}

// Whether the type of such a word uses ?R, where the index has the words of those before it.
fn uses_by(index: &Index, j: u8, w: u64) -> bool
    ensures { result ≡ use_in index.now j w }
{
    if is_array_type(w) {
        return uses_name(index, element_in(w, j));
    }
    is_generic_type(w)
}

// The word with what it tells of ?R.
fn type_entry(e: Encoded, index: &Index, j: u8) -> u64
    ensures type_word { TypeWord e.entry.bytes.now j result }
    ensures use_told { UseTold index.now j result }
{
    let w = record_entry(e, j);
    if uses_by(index, j, w) {
        return w + 562949953421312;
    }
    w
}

fn fill_types(e: Encoded, index: &mut Index)
    requires { length index.old ≡ 129 }
    ensures { TypesFilled e.entry.bytes.now index.old index.new }
{
    let n = byte(e.bytes, 0, 4).min(64);
    for j in 0..n {
        index[j as usize] = type_entry(e, index, j);
    }
}

// The word of procedure k, as its PR says.
fn procedure_entry(e: Encoded, k: usize, pr: u32) -> u64
    requires { (k < 64) × (pr < 2 ^ 31) }
    ensures { pr ≡ procedure_at e.entry.bytes.now k → ProcedureWord e.entry.bytes.now k result }
{
    let variables = byte(e.bytes, pr as usize, 4);
    let formals = byte(e.bytes, pr as usize, 3);
    let bound = bound_size(e, k, pr);
    let first = instruction_from(start_from(e, k, pr) as u32, variables, 0) as u32;
    procedure_word(k as u8, variables, formals, bound, first)
}

// Where the next procedure starts.
fn next_from(e: Encoded, k: usize, pr: u32) -> u32
    requires { pr < 2 ^ 31 }
    ensures value { pr ≡ procedure_at e.entry.bytes.now k → result ≡ procedure_at e.entry.bytes.now (suc k) }
    ensures upper_bound { result < pr + 700000 }
{
    let variables = byte(e.bytes, pr as usize, 4);
    instruction_from(
        start_from(e, k, pr) as u32,
        variables,
        word(e.bytes, pr as usize, 6),
    ) as u32
}

// After the last procedure there is, for its end, a word of no variables.
fn fill_procedures(e: Encoded, index: &mut Index)
    requires { length index.old ≡ 129 }
    ensures { ProceduresFilled e.entry.bytes.now index.old index.new }
{
    let n = (byte(e.bytes, 0, 5) as usize).min(64);
    let mut at = qual_at(e, byte(e.bytes, 0, 4)) as u32;
    for i in 0..n {
        index[64 + i] = procedure_entry(e, i, at);
        at = next_from(e, i, at);
    }
    index[64 + n] = procedure_word(0, 0, 0, 0, at + 8);
}

pub fn indexed(s: &[u8]) -> Index
    ensures { Indexed s.now result }
{
    let mut index = [0u64; 129];
    let e = Encoded::new(s);
    fill_types(e, &mut index);
    fill_procedures(e, &mut index);
    index
}
