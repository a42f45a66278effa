// The operations of the watched machine on arrays and records: what each asks for (crate watched_plan), done (crate writers). p is the scope of the running
// frame.
#![tactic(auto)]

ghost use Rattle.std.specs.Prelude.{List, ℕ, ◌-◌, ◌<◌, length, ◌≡◌, false, Ok};
ghost use Rattle.model.specs.Qualified.{is_generic};
ghost use Rattle.model.specs.Modes.{watched};
ghost use Rattle.model.specs.declared.Operation.TheVariants as Op;
ghost use Rattle.index.specs.Types.{named_as};
ghost use Rattle.index.specs.Indexed.{Ready};
ghost use Rattle.form.specs.Named.{Named};
ghost use Rattle.writers.specs.Memory.{Sane, variables_in};
ghost use Rattle.frames.specs.Performs.{PerformsInside};
ghost use Rattle.watched_calls.specs.Calls.{ScopeHere};
ghost use Rattle.watched_objects.specs.Objects.{array_for, record_for, DoesInside};

use index::Index;
use index::procedures::Scope;
use index::sheets::Sheet;
use index::types::{name_base, name_rights};
use model::Halt;
use sheet::bytes::byte;
use sheet::fields::field;
use sheet::places::type_at;
use watched_plan::{
    array_made_as, declared_element, declared_rights, fetch_guarded, get_guarded, record_made_as,
    set_slot_guarded, size_guarded, sized, store_guarded,
};
use words::{array_word, object_word, record_word};
use writers::{Next, Registers, Stepped, allot, give_moved, give_number, parts, store_cell};

// A new array of n cells, where there is room for it, bound to variable a.
fn give_array(
    s: Sheet,
    p: Scope,
    memory: &mut [u64],
    r: Registers,
    a: u8,
    n: Result<u32, Halt>,
) -> Stepped
    requires sane { Sane (length memory.old) r }
    requires next_bound { r.next < 1000 }
    requires a_bound { a < variables_in r }
    ensures { is_generic (named_as p.name) ≡ false → DoesInside s.entry.bytes.now memory.old memory.new r result (array_for s.entry.bytes.now p r a n) }
{
    let x = n?;
    if r.base - r.used <= (x as usize) {
        return Err(Halt::MemoryFull);
    }
    make_array(s, p, memory, r, a, x)
}

// The same where there is room.
fn make_array(s: Sheet, p: Scope, memory: &mut [u64], r: Registers, a: u8, n: u32) -> Stepped
    requires sane { Sane (length memory.old) r }
    requires next_bound { r.next < 1000 }
    requires a_bound { a < variables_in r }
    requires n_bound { n < r.base - r.used }
    ensures { is_generic (named_as p.name) ≡ false → DoesInside s.entry.bytes.now memory.old memory.new r result (array_for s.entry.bytes.now p r a (Ok n)) }
{
    array_made_as(s, p, a)?;
    let element = declared_element(s, p, a);
    let head = array_word(n, element, name_base(p.name), name_rights(p.name));
    let name = object_word(r.used as u32, declared_rights(s, p, a));
    Ok(Next::Enter(allot(memory, r, a, head, n, name)))
}

pub fn new_array(s: Sheet, p: Scope, memory: &mut [u64], r: Registers, a: u8, b: u8) -> Stepped
    requires sane { Sane (length memory.old) r }
    requires next_bound { r.next < 1000 }
    requires named { Named (variables_in r) (Op.NewArray a b) }
    requires scope_here { ScopeHere s.bytes.now memory.old r p }
    ensures { PerformsInside watched s.entry.bytes.now memory.old memory.new r result (Op.NewArray a b) }
{
    let n = sized(s, p, parts(memory, r).frame, a, b);
    give_array(s, p, memory, r, a, n)
}

pub fn fetch(s: Sheet, p: Scope, memory: &mut [u64], r: Registers, a: u8, b: u8, c: u8) -> Stepped
    requires sane { Sane (length memory.old) r }
    requires next_bound { r.next < 1000 }
    requires named { Named (variables_in r) (Op.Fetch a b c) }
    requires scope_here { ScopeHere s.bytes.now memory.old r p }
    ensures { PerformsInside watched s.entry.bytes.now memory.old memory.new r result (Op.Fetch a b c) }
{
    let m = fetch_guarded(s, p, parts(memory, r), a, b, c);
    give_moved(memory, r, a, m)
}

pub fn store(index: &Index, memory: &mut [u64], r: Registers, a: u8, b: u8, c: u8) -> Stepped
    requires sane { Sane (length memory.old) r }
    requires next_bound { r.next < 1000 }
    requires named { Named (variables_in r) (Op.Store a b c) }
    ensures { (s : List ℕ) → Ready s index.now → PerformsInside watched s memory.old memory.new r result (Op.Store a b c) }
{
    let m = store_guarded(index, parts(memory, r), a, b, c);
    store_cell(memory, r, m)
}

pub fn size(s: Sheet, p: Scope, memory: &mut [u64], r: Registers, a: u8, b: u8) -> Stepped
    requires sane { Sane (length memory.old) r }
    requires next_bound { r.next < 1000 }
    requires named { Named (variables_in r) (Op.Size a b) }
    requires scope_here { ScopeHere s.bytes.now memory.old r p }
    ensures { PerformsInside watched s.entry.bytes.now memory.old memory.new r result (Op.Size a b) }
{
    let n = size_guarded(s, p, parts(memory, r), a, b);
    give_number(memory, r, a, n)
}

// A new record of the owner's type, of n slots, where there is room for it, bound to variable a.
fn make_record(s: Sheet, p: Scope, memory: &mut [u64], r: Registers, a: u8, n: u32) -> Stepped
    requires sane { Sane (length memory.old) r }
    requires next_bound { r.next < 1000 }
    requires a_bound { a < variables_in r }
    requires n_bound { n < r.base - r.used }
    ensures { DoesInside s.entry.bytes.now memory.old memory.new r result (record_for s.entry.bytes.now p r a n) }
{
    record_made_as(s, p, a)?;
    let head = record_word(n, field(s.bytes, p.head, 2));
    let name = object_word(r.used as u32, declared_rights(s, p, a));
    Ok(Next::Enter(allot(memory, r, a, head, n, name)))
}

pub fn new_record(s: Sheet, p: Scope, memory: &mut [u64], r: Registers, a: u8) -> Stepped
    requires sane { Sane (length memory.old) r }
    requires next_bound { r.next < 1000 }
    requires named { Named (variables_in r) (Op.NewRecord a) }
    requires scope_here { ScopeHere s.bytes.now memory.old r p }
    ensures { PerformsInside watched s.entry.bytes.now memory.old memory.new r result (Op.NewRecord a) }
{
    let n = u32::from(byte(s.bytes, type_at(field(s.bytes, p.head, 2)), 3));
    if r.base - r.used <= (n as usize) {
        return Err(Halt::MemoryFull);
    }
    make_record(s, p, memory, r, a, n)
}

pub fn get_slot(
    s: Sheet,
    p: Scope,
    memory: &mut [u64],
    r: Registers,
    a: u8,
    b: u8,
    k: u16,
) -> Stepped
    requires sane { Sane (length memory.old) r }
    requires next_bound { r.next < 1000 }
    requires named { Named (variables_in r) (Op.GetSlot a b k) }
    requires scope_here { ScopeHere s.bytes.now memory.old r p }
    ensures { PerformsInside watched s.entry.bytes.now memory.old memory.new r result (Op.GetSlot a b k) }
{
    let m = get_guarded(s, p, parts(memory, r), a, b, k);
    give_moved(memory, r, a, m)
}

pub fn set_slot(
    s: Sheet,
    p: Scope,
    memory: &mut [u64],
    r: Registers,
    a: u8,
    b: u8,
    k: u16,
) -> Stepped
    requires sane { Sane (length memory.old) r }
    requires next_bound { r.next < 1000 }
    requires named { Named (variables_in r) (Op.SetSlot a b k) }
    requires scope_here { ScopeHere s.bytes.now memory.old r p }
    ensures { PerformsInside watched s.entry.bytes.now memory.old memory.new r result (Op.SetSlot a b k) }
{
    let m = set_slot_guarded(s, p, parts(memory, r), a, b, k);
    store_cell(memory, r, m)
}
