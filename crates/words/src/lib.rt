// One word of the memory: what it stands for, and how it is read and written.
#![tactic(auto, unfolding(crate::specs::Word::low, crate::specs::Word::tag, crate::specs::Word::payload, crate::specs::Word::pack))]

ghost use Rattle.std.specs.Prelude.{◌≡◌, ℕ, ◌+◌, ◌<◌, ◌≤◌, ◌^◌, length, get_or, set, replicate, eqb};
ghost use Rattle.model.specs.Qualified.{Qual, declared};
ghost use Rattle.model.specs.Generic as generic;
ghost use Rattle.model.specs.Modes.{Mode, settled_set, carried, element_info, type_info};
ghost use Rattle.model.specs.Machine.{word, object, filled, array_head, record_head};
ghost use Rattle.words.specs.Word.{cell, head, back, low, tag, payload, size_of, info_of, settled_base, back_kept, back_next, number_of, variables_of, formals_of, bound_of, first_of, procedure_word, slot_in};
ghost use Rattle.words.specs.Answer.{read_cell, read_filled};

use model::Halt;

// The word of a filled cell, on its way to a cell of an object.
#[derive(Clone, Copy)]
pub struct Stored {
    pub object: u32,
    pub cell: u32,
    pub word: u64,
}

// What an instruction reads of the memory: the running frame's variables and the objects.
#[derive(Clone, Copy)]
pub struct Parts<'a> {
    pub frame: &'a [u64],
    pub objects: &'a [u64],
}

// The word at i, 0 (a blank cell) past the end.
pub fn read(b: &[u64], i: usize) -> u64
    ensures { result ≡ get_or b.now i 0 }
{
    if i < b.len() { b[i] } else { 0 }
}

// The word of variable x of a frame's part, which has it.
pub fn word_at(f: &[u64], x: u8) -> u64
    requires { x < length f.now }
    ensures { result ≡ get_or f.now x 0 }
{
    f[x as usize]
}

// The word at i becomes w; nothing changes past the end.
pub fn write(b: &mut [u64], i: usize, w: u64)
    ensures { b.new ≡ set b.old i w }
{
    if i < b.len() {
        b[i] = w;
    }
}

// A word read as a cell: 0 is blank, a filled cell is known by its word.
pub fn cell_of(w: u64) -> Option<u64>
    ensures { result ≡ read_cell w }
{
    if w == 0 { None } else { Some(w) }
}

// The word of a filled cell.
pub fn filled(w: u64) -> Result<u64, Halt>
    ensures { result ≡ read_filled w }
{
    let Some(word) = cell_of(w) else {
        return Err(Halt::Blank);
    };
    Ok(word)
}

// The integer of a word, or an object's rights; the name of an object; the size in the head of an object.
pub fn low_of(w: u64) -> u32
    ensures { result ≡ low w }
{
    (w % 4294967296) as u32
}

pub fn name_of(w: u64) -> u32
    ensures { result ≡ payload w }
{
    (w / 34359738368) as u32
}

pub fn size_of(w: u64) -> u32
    ensures { result ≡ size_of w }
{
    (w / 34359738368 % 65536) as u32
}

// What a word is: three bits of it, whose numbers are the layout of the lent memory.
fn tag_of(w: u64) -> u8
    ensures { result ≡ tag w }
{
    (w / 4294967296 % 8) as u8
}

pub fn is_integer_word(w: u64) -> bool
    ensures { result ≡ eqb (tag w) 1 }
{
    tag_of(w) == 1
}

pub fn is_object_word(w: u64) -> bool
    ensures { result ≡ eqb (tag w) 2 }
{
    tag_of(w) == 2
}

pub fn is_array_head(w: u64) -> bool
    ensures { result ≡ eqb (tag w) 3 }
{
    tag_of(w) == 3
}

pub fn is_record_head(w: u64) -> bool
    ensures { result ≡ eqb (tag w) 4 }
{
    tag_of(w) == 4
}

// The number of the element or of the type in the head of an object.
pub fn kind_in(w: u64) -> u8
    ensures { result ≡ info_of w }
{
    (w / 34359738368 / 65536 % 256) as u8
}

// The base that ?R of an array's element has, in the head of the array.
pub fn settled_base(w: u64) -> u8
    ensures { result ≡ settled_base w }
{
    (2 + w / 34359738368 / 16777216 % 32) as u8
}

// Where a frame that waits goes back: the variable that its call keeps, its next instruction.
pub fn back_kept(w: u64) -> u8
    ensures { result ≡ back_kept w }
{
    (w / 34359738368 % 256) as u8
}

pub fn back_next(w: u64) -> u32
    ensures { result ≡ back_next w }
{
    (w / 34359738368 / 16384) as u32
}

// In the word of a procedure: its number, its variables and formals, and where its instructions start.
pub fn number_in(w: u64) -> u8
    ensures { result ≡ number_of w }
{
    (w / 34359738368 / 256 % 64) as u8
}

pub fn variables_in(w: u64) -> u8
    ensures { result ≡ variables_of w }
{
    (w / 34359738368 % 256) as u8
}

pub fn formals_in(w: u64) -> u8
    ensures { result ≡ formals_of w }
{
    (w / 34359738368 / 16384 % 256) as u8
}

// The bytes of its GN, 0 where it has none.
pub fn bound_in(w: u64) -> u8
    ensures { result ≡ bound_of w }
{
    (w / 34359738368 / 4194304 % 8) as u8
}

pub fn first_in(w: u64) -> u32
    ensures { result ≡ first_of w }
{
    low_of(w)
}

// The words of an integer, of an object, of the heads of an array and of a record, of where a frame goes back and of a procedure.
pub fn integer_word(n: u32) -> u64
    ensures { (m : Mode) (q : ℕ → Qual) → slot_in m q result ≡ cell (filled (word n) (carried m 0)) }
{
    4294967296 + (n as u64)
}

pub fn object_word(a: u32, rights: u32) -> u64
    requires { a < 2 ^ 29 }
    ensures { (m : Mode) (q : ℕ → Qual) → slot_in m q result ≡ cell (filled (object a) (carried m rights)) }
{
    ((a as u64) * 8 + 2) * 4294967296 + (rights as u64)
}

// The element has ?R with a base and a set.
pub fn array_word(n: u32, element: u8, base: u8, set: u32) -> u64
    requires n_bound { n < 2 ^ 16 }
    requires le_base { (2 ≤ base) × (base < 34) }
    ensures { (m : Mode) (q : ℕ → Qual) → slot_in m q result ≡ head (array_head (element_info m (generic.read (declared base set) (q element))) n) }
{
    let kind = ((base - 2) as u64) * 256 + (element as u64);
    ((kind * 65536 + (n as u64)) * 8 + 3) * 4294967296 + (set as u64)
}

pub fn record_word(n: u32, kind: u8) -> u64
    requires { n < 2 ^ 16 }
    ensures { (m : Mode) (q : ℕ → Qual) → slot_in m q result ≡ head (record_head (type_info m kind) n) }
{
    (((kind as u64) * 65536 + (n as u64)) * 8 + 4) * 4294967296
}

pub fn back_word(next: u32, kept: u8, set: u32) -> u64
    requires { next < 2 ^ 15 }
    ensures { (m : Mode) (q : ℕ → Qual) → slot_in m q result ≡ back next kept (settled_set m set) }
{
    (((next as u64) * 16384 + (kept as u64)) * 8 + 5) * 4294967296 + (set as u64)
}

pub fn procedure_word(number: u8, variables: u8, formals: u8, bound: u8, first: u32) -> u64
    requires { (number < 2 ^ 6) × (bound < 2 ^ 3) }
    ensures { result ≡ procedure_word number variables formals bound first }
{
    let counts = (((bound as u64) * 256 + (formals as u64)) * 64 + (number as u64)) * 256
        + (variables as u64);
    (counts * 8 + 6) * 4294967296 + (first as u64)
}

// Every word of a slice becomes 0.
pub fn clear(b: &mut [u64])
    ensures { b.new ≡ replicate (length b.old) 0 }
{
    b.fill(0);
}
