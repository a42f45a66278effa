// The limits of each record's fields, as tests on plain numbers, so that each is its definition read aloud.
#![tactic(auto)]

ghost use Rattle.std.specs.Prelude.{◌≡◌};
ghost use Rattle.sheet.specs.Instructions.{line_of};
ghost use Rattle.limits.specs.Scale.{below_or_none, header_scale, rights_scale, qual_scale, bound_scale, procedure_scale, variable_scale, line_scale, instruction_scale, actuals_scale};

use rights::{has_none_above, has_right, is_within};
use sheet::decode::Fields;

// Where it is due a number below n, else 255, which the format writes for none.
#[tactic(auto, unfolding(crate::specs::Scale::below_or_none))]
pub fn below_or_none(n: u8, due: bool, x: u8) -> bool
    ensures { result ≡ below_or_none n due x }
{
    if due { x < n } else { x == 255 }
}

#[tactic(auto, unfolding(crate::specs::Scale::header_scale, model::specs::Refusal::all_from))]
pub fn header_scale(t: u8, q: u8, p: u8) -> bool
    ensures { result ≡ header_scale t q p }
{
    (t <= 32) & (q <= 64) & (1 <= p) & (p <= 64)
}

#[tactic(auto, unfolding(crate::specs::Scale::rights_scale))]
fn rights_scale(named: u8, base: u8, rights: u32) -> bool
    ensures { result ≡ rights_scale named base rights }
{
    if base == 0 {
        rights == 0
    } else if base == 1 {
        is_within(rights, 14)
    } else {
        has_none_above(named, rights)
    }
}

#[tactic(auto, unfolding(crate::specs::Scale::qual_scale, model::specs::Refusal::all_from))]
pub fn qual_scale(t: u8, named: u8, j: u8, base: u8, rights: u32, element: u8) -> bool
    ensures { result ≡ qual_scale t named j base rights element }
{
    if base == 255 {
        (rights == 0) & (element == 255)
    } else {
        (u16::from(base) < u16::from(t) + 2)
            & rights_scale(named, base, rights)
            & below_or_none(j, base == 1, element)
    }
}

#[tactic(auto, unfolding(crate::specs::Scale::bound_scale, model::specs::Refusal::all_from))]
pub fn bound_scale(t: u8, named: u8, base: u8, least: u32) -> bool
    ensures { result ≡ bound_scale t named base least }
{
    (2 <= base)
        & (u16::from(base) < u16::from(t) + 2)
        & has_none_above(named, least)
        & !has_right(0, least)
}

#[tactic(auto, unfolding(crate::specs::Scale::procedure_scale, model::specs::Refusal::all_from))]
pub fn procedure_scale(t: u8, q: u8, i: usize, owner: u8, f: u8, v: u8, res: u8, n: u16) -> bool
    ensures { result ≡ procedure_scale t q i owner f v res n }
{
    ((owner == 0) | (2 <= owner) & (u16::from(owner) < u16::from(t) + 2))
        & (f <= 8)
        & (f <= v)
        & (v <= 32)
        & ((res == 255) | (res < q))
        & (1 <= n)
        & (n <= 1000)
        & ((i != 0) | (owner == 0) & (f == 0) & (res == 255))
}

#[tactic(auto, unfolding(crate::specs::Scale::variable_scale, model::specs::Refusal::all_from))]
pub fn variable_scale(q: u8, f: u8, x: u8, inner: u8, need: u8) -> bool
    ensures { result ≡ variable_scale q f x inner need }
{
    (inner < q) & below_or_none(q, x < f, need)
}

// What the limits of an IN depend on: its procedure's variables, instructions and owner, and that owner's slots.
#[derive(Clone, Copy)]
pub struct Limits {
    pub variables: u8,
    pub instructions: u16,
    pub owner: u8,
    pub slots: u8,
}

// The limits of the fields of an IN, line by line as in the table of instructions; no line, no IN.
#[tactic(auto, unfolding(crate::specs::Scale::line_scale, crate::specs::Scale::line_limits, crate::specs::Scale::operand_limits, crate::specs::Scale::constant_limits, crate::specs::Scale::home_limits, model::specs::Refusal::all_from, sheet::specs::Instructions::line_in, sheet::specs::Instructions::table))]
fn line_scale(l: Limits, f: Fields) -> bool
    ensures { result ≡ line_scale l f (line_of f.code) }
{
    let a = f.a < l.variables;
    let b = f.b < l.variables;
    let c = f.c < l.variables;
    let a_or_none = a | (f.a == 255);
    let no_b = f.b == 255;
    let no_c = f.c == 255;
    let no_k = f.k == 0;
    let slot = f.k < u16::from(l.slots);
    let owned = 2 <= l.owner;
    match f.code {
        1 => a & no_b & no_c,
        2 => a & b & c & no_k,
        3 => a & b & c & no_k,
        4 => a & b & c & no_k,
        5 => a & no_b & no_c & (f.k < l.instructions),
        6 => a & b & no_c & no_k,
        7 => a & no_b & no_c & no_k,
        8 => a & no_b & no_c & no_k,
        9 => a & b & no_c & no_k,
        10 => a & b & c & no_k,
        11 => a & b & c & no_k,
        12 => a & b & no_c & no_k,
        13 => a & no_b & no_c & no_k & owned,
        14 => a & b & no_c & slot & owned,
        15 => a & b & no_c & slot & owned,
        16 => a_or_none & no_c,
        17 => a_or_none & no_b & no_c & no_k,
        _ => false,
    }
}

// IN number i.
#[tactic(auto, unfolding(crate::specs::Scale::instruction_scale))]
pub fn instruction_scale(l: Limits, f: Fields, i: u16) -> bool
    ensures { result ≡ instruction_scale l f i }
{
    let last = u32::from(i) + 1 == u32::from(l.instructions);
    line_scale(l, f) & (!last | (f.code == 17))
}

#[tactic(auto, unfolding(crate::specs::Scale::actuals_scale))]
pub fn actuals_scale(f: u8, b: u8, v: u8) -> bool
    ensures { result ≡ actuals_scale f b v }
{
    if f == 0 {
        b == 255
    } else {
        u16::from(b) + u16::from(f) <= u16::from(v)
    }
}
