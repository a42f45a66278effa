// What each instruction of the plain machine asks for, found by reading alone: f is the running frame's part of the memory, p that and the objects'.
// A blank that is read or moved stops. No kind is tested: where a value has not the kind due the definition is stuck, and of an accepted sheet
// condition 3 says that it never is. The variables that are read are the frame's, which the callers owe.
#![tactic(auto)]

ghost use Rattle.std.specs.Prelude.{◌≡◌, ℕ, ◌<◌, List, length};
ghost use Rattle.model.specs.Qualified.{Qual};
ghost use Rattle.model.specs.Program.{Program};
ghost use Rattle.model.specs.Modes.{plain};
ghost use Rattle.model.specs.Machine.{View, plan, one_integer};
ghost use Rattle.model.specs.declared.Operation.TheVariants as Op;
ghost use Rattle.words.specs.Sees.{Sees};
ghost use Rattle.words.specs.Answers.{UnlessStuck, MovedOk, StoredOk, number_as, given, moved_to, stored};

use model::Halt;
use model::arithmetic::Arithmetic;
use words::{Parts, Stored, cell_of, filled, low_of, name_of, read, size_of, word_at};

// The integer in variable x. A cell is taken apart by `let .. else` here as in the watched machine's tests (docs/DECISIONS.md, "Each place has its form").
pub fn integer_at(f: &[u64], x: u8) -> Result<u32, Halt>
    requires { x < length f.now }
    ensures { (q : ℕ → Qual) (g : Program) (v : View plain) (h : List ℕ) → Sees plain q v f.now h → UnlessStuck (one_integer plain g v x) (number_as plain result ≡ one_integer plain g v x) }
{
    let Some(w) = cell_of(word_at(f, x)) else {
        return Err(Halt::Blank);
    };
    Ok(low_of(w))
}

// What an operation makes of the integers in variables b and c.
pub fn arithmetic_of<A: Arithmetic>(f: &[u64], b: u8, c: u8) -> Result<u32, Halt>
    requires { (b < length f.now) × (c < length f.now) }
    ensures { (q : ℕ → Qual) (g : Program) (v : View plain) (h : List ℕ) (a : ℕ) → Sees plain q v f.now h → UnlessStuck (plan plain g v (A.operation a b c)) (given plain a result ≡ plan plain g v (A.operation a b c)) }
{
    let x = filled(word_at(f, b))?;
    let y = filled(word_at(f, c))?;
    Ok(A::apply(low_of(x), low_of(y)))
}

// Variable x, moved.
pub fn moved_at(f: &[u64], x: u8) -> Result<u64, Halt>
    requires { x < length f.now }
    ensures { (q : ℕ → Qual) (g : Program) (v : View plain) (h : List ℕ) (a : ℕ) → Sees plain q v f.now h → UnlessStuck (plan plain g v (Op.Bind a x)) (MovedOk result × (moved_to plain q a result ≡ plan plain g v (Op.Bind a x))) }
{
    filled(word_at(f, x))
}

pub fn fetch_of(p: Parts, b: u8, c: u8) -> Result<u64, Halt>
    requires { (b < length p.frame.now) × (c < length p.frame.now) }
    ensures { (q : ℕ → Qual) (g : Program) (v : View plain) (a : ℕ) → Sees plain q v p.entry.frame.now p.entry.objects.now → UnlessStuck (plan plain g v (Op.Fetch a b c)) (MovedOk result × (moved_to plain q a result ≡ plan plain g v (Op.Fetch a b c))) }
{
    let x = filled(word_at(p.frame, b))?;
    let y = filled(word_at(p.frame, c))?;
    let o = name_of(x) as usize;
    let i = low_of(y);
    if i < size_of(read(p.objects, o)) {
        filled(read(p.objects, o + 1 + (i as usize)))
    } else {
        Err(Halt::PastEnd)
    }
}

pub fn array_size_of(p: Parts, b: u8) -> Result<u32, Halt>
    requires { b < length p.frame.now }
    ensures { (q : ℕ → Qual) (g : Program) (v : View plain) (a : ℕ) → Sees plain q v p.entry.frame.now p.entry.objects.now → UnlessStuck (plan plain g v (Op.Size a b)) (given plain a result ≡ plan plain g v (Op.Size a b)) }
{
    let x = filled(word_at(p.frame, b))?;
    Ok(size_of(read(p.objects, name_of(x) as usize)))
}

pub fn store_at(p: Parts, a: u8, b: u8, c: u8) -> Result<Stored, Halt>
    requires { (a < length p.frame.now) × ((b < length p.frame.now) × (c < length p.frame.now)) }
    ensures { (q : ℕ → Qual) (g : Program) (v : View plain) → Sees plain q v p.entry.frame.now p.entry.objects.now → UnlessStuck (plan plain g v (Op.Store a b c)) (StoredOk p.entry.objects.now result × (stored plain q result ≡ plan plain g v (Op.Store a b c))) }
{
    let x = filled(word_at(p.frame, a))?;
    let y = filled(word_at(p.frame, b))?;
    let object = name_of(x);
    let cell = low_of(y);
    if size_of(read(p.objects, object as usize)) <= cell {
        return Err(Halt::PastEnd);
    }
    let word = filled(word_at(p.frame, c))?;
    Ok(Stored { object, cell, word })
}

pub fn get_of(p: Parts, b: u8, k: u16) -> Result<u64, Halt>
    requires { b < length p.frame.now }
    ensures { (q : ℕ → Qual) (g : Program) (v : View plain) (a : ℕ) → Sees plain q v p.entry.frame.now p.entry.objects.now → UnlessStuck (plan plain g v (Op.GetSlot a b k)) (MovedOk result × (moved_to plain q a result ≡ plan plain g v (Op.GetSlot a b k))) }
{
    let x = filled(word_at(p.frame, b))?;
    filled(read(p.objects, (name_of(x) as usize) + 1 + (k as usize)))
}

pub fn set_at(f: &[u64], a: u8, b: u8, k: u16) -> Result<Stored, Halt>
    requires { (a < length f.now) × (b < length f.now) }
    ensures { (q : ℕ → Qual) (g : Program) (v : View plain) (h : List ℕ) → Sees plain q v f.now h → UnlessStuck (plan plain g v (Op.SetSlot a b k)) (StoredOk h result × (stored plain q result ≡ plan plain g v (Op.SetSlot a b k))) }
{
    let x = filled(word_at(f, a))?;
    let word = filled(word_at(f, b))?;
    let object = name_of(x);
    Ok(Stored {
        object,
        cell: k as u32,
        word,
    })
}
