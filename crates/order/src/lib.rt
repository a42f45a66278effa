// The order of the qualified types of an index: equality, ≥ and movements, by their numbers. Each side reads ?R as its name has it, so that one number may
// stand for two types.
#![tactic(auto)]

ghost use Rattle.std.specs.Prelude.{◌≡◌, Bool, true, ◌&&◌, eqb, List, ℕ};
ghost use Rattle.model.specs.Rights.{within};
ghost use Rattle.model.specs.Qualified.{same, order, elements};
ghost use Rattle.model.specs.Refusal.{failure};
ghost use Rattle.model.specs.Rules.{moves, owned_by, amplifies};
ghost use Rattle.index.specs.Types.{word_in, shape_of, rights_of, element_below, qual_in, type_in, word_as, UsesTold};
ghost use Rattle.order.specs.Words.{same_heads, alike_heads, covered_heads, type_of, ElementThere};

use index::Index;
use index::sheets::Sheet;
use index::types::{
    element_in, element_number, is_array_type, is_generic_type, is_integer_type, rights_by,
    rights_in, shape_in, type_word, type_word_as, uses_name, word_read,
};
use model::{Reason, require};
use rights::{has_right, is_within};

// Of the owner's type; owner 0 is none. ?R has the base that it is read with.
#[tactic(auto, unfolding(model::specs::Rules::owned_by), using(crate::proofs::Laws::base_part))]
pub fn is_owned(index: &Index, name: u64, owner: u8, j: u8) -> bool
    ensures { result ≡ owned_by owner (type_in index.now name j) }
{
    (2 <= owner) & (shape_in(type_word_as(index, name, j)) % 256 == (owner as u16))
}

// The same, and no ?R, which is not read for it.
#[tactic(auto, using(crate::proofs::Laws::amplifies_word))]
pub fn is_amplified(index: &Index, owner: u8, j: u8) -> bool
    ensures { result ≡ amplifies owner (qual_in index.now j) }
{
    (2 <= owner) & (shape_in(type_word(index, j)) == (owner as u16))
}

// Same shape and same rights, which an integer does not have, of the types of two words: all there is to ask but for two arrays.
#[tactic(auto, unfolding(crate::specs::Words::same_heads))]
fn is_same_head(v: u64, w: u64) -> bool
    ensures { result ≡ same_heads v w }
{
    (shape_in(v) == shape_in(w)) & (is_integer_type(v) | (rights_in(v) == rights_in(w)))
}

// Two arrays with the same rights: shape and rights stand side by side in their words, so that they are compared at once.
#[tactic(auto, using(crate::proofs::Laws::heads_at_once))]
fn is_same_array(v: u64, w: u64) -> bool
    ensures { result ≡ (eqb (shape_of v) 1 && same_heads v w) }
{
    is_array_type(v) & (v % 2199023255552 == w % 2199023255552)
}

// The word of an array's element, by the number in the array's own word, w. That number falls; one that does not is read as an integer.
#[tactic(auto, using(crate::proofs::Laws::element_word_there, crate::proofs::Laws::element_word_none))]
fn element_word(index: &Index, w: u64, j: u8) -> u64
    requires { ElementThere w j }
    ensures { result ≡ word_in index.now (element_below w j) }
{
    let e = element_number(w);
    if e < j {
        return index[e as usize];
    }
    0
}

// Equal all the way down, from the inside out (document 02, S-2): the elements answer first, and only then are shape and rights around them compared. The
// way down asks no more than whether there is a level below. v and w are the words of the two types, i and j their numbers. By & and not by a branch, so that
// the compiler makes a loop of it, which takes no stack.
#[tactic(auto, using(crate::proofs::Laws::same_arrays, crate::proofs::Laws::same_others, crate::proofs::Laws::type_of_element, crate::proofs::Laws::element_there_below, crate::proofs::Laws::levels_fall))]
fn equal_in(index: &Index, m: u64, i: u8, v: u64, n: u64, j: u8, w: u64) -> bool
    requires { ElementThere v i × ElementThere w j }
    ensures { result ≡ same (type_of index.now m i v) (type_of index.now n j w) }
{
    if is_array_type(v) {
        let e = element_word(index, v, i);
        let f = element_word(index, w, j);
        return equal_in(index, m, element_number(v), e, n, element_number(w), f)
            & is_same_array(v, w);
    }
    is_same_head(word_read(m, v), word_read(n, w))
}

// Equal shapes, or ?R and a type of its base: all there is to ask but of the elements of two arrays. v and w are the words of two types, as they are read.
#[tactic(auto, unfolding(crate::specs::Words::one_named, crate::specs::Words::alike_heads), using(crate::proofs::Laws::shape_small))]
fn is_alike_head(v: u64, w: u64) -> bool
    ensures { result ≡ alike_heads v w }
{
    let b = shape_in(v);
    let c = shape_in(w);
    if b == c {
        return !is_generic_type(v) | (rights_in(v) == rights_in(w));
    }
    (2 <= b) & (b + 256 == c) | (2 <= c) & (c + 256 == b)
}

// The rights of the type of a word, w, are among those of another, v; only ?R reaches ?R.
#[tactic(auto, unfolding(crate::specs::Words::covered_heads))]
fn is_covered(v: u64, w: u64) -> bool
    ensures { result ≡ covered_heads v w }
{
    if is_generic_type(w) {
        return is_generic_type(v);
    }
    is_within(rights_by(w), rights_by(v))
}

// An array whose rights are among those of another, v.
fn is_array_above(v: u64, w: u64) -> bool
    ensures { result ≡ (eqb (shape_of w) 1 && within (rights_of w) (rights_of v)) }
{
    is_array_type(w) & is_within(rights_in(w), rights_in(v))
}

// What is asked of the elements of two arrays, by whether the second array has store (document 02, S-3): with it they are equal, all the way down; without it
// they are ≥, and where they are arrays themselves their own store tells what is asked below. From the inside out as `equal_in` is.
#[tactic(auto, unfolding(model::specs::Qualified::elements), using(crate::proofs::Laws::order_arrays, crate::proofs::Laws::order_others, crate::proofs::Laws::type_of_element, crate::proofs::Laws::element_there_below, crate::proofs::Laws::levels_fall))]
fn agree_in(index: &Index, stores: bool, m: u64, i: u8, v: u64, n: u64, j: u8, w: u64) -> bool
    requires { ElementThere v i × ElementThere w j }
    ensures { result ≡ elements stores (type_of index.now m i v) (type_of index.now n j w) }
{
    if stores {
        return equal_in(index, m, i, v, n, j, w);
    }
    if is_array_type(v) {
        let from = element_word(index, v, i);
        let to = element_word(index, w, j);
        let below = has_right(2, rights_in(w));
        return agree_in(
            index,
            below,
            m,
            element_number(v),
            from,
            n,
            element_number(w),
            to,
        ) & is_array_above(v, w);
    }
    let x = word_read(m, v);
    let y = word_read(n, w);
    is_alike_head(x, y) & is_covered(x, y)
}

// The same of QT i and QT j. Two names of one QT, read alike, agree at once.
#[tactic(auto, using(crate::proofs::Laws::type_of_lem, crate::proofs::Laws::element_there, model::proofs::Order::elements_refl))]
pub fn elements_agree(index: &Index, stores: bool, m: u64, i: u8, n: u64, j: u8) -> bool
    ensures { result ≡ elements stores (type_in index.now m i) (type_in index.now n j) }
{
    if (i == j) & (m == n) {
        return true;
    }
    agree_in(
        index,
        stores,
        m,
        i,
        type_word(index, i),
        n,
        j,
        type_word(index, j),
    )
}

#[tactic(auto, unfolding(model::specs::Qualified::elements))]
pub fn equal(index: &Index, m: u64, i: u8, n: u64, j: u8) -> bool
    ensures { result ≡ same (type_in index.now m i) (type_in index.now n j) }
{
    elements_agree(index, true, m, i, n, j)
}

// The refusal of a movement between two arrays, by their words: the elements come before the rights around them.
fn array_movement(index: &Index, m: u64, i: u8, v: u64, n: u64, j: u8, w: u64) -> Result<(), Reason>
    requires v_value { (v ≡ word_as index.now m i) × (w ≡ word_as index.now n j) }
    requires v_value_2 { (shape_of v ≡ 1) × (shape_of w ≡ 1) }
    ensures { result ≡ failure (moves (type_in index.now m i) (type_in index.now n j)) }
{
    let stores = has_right(2, rights_in(w));
    let alike = elements_agree(index, stores, m, element_in(v, i), n, element_in(w, j));
    require(alike, Reason::TypeMismatch)?;
    require(
        is_within(rights_in(w), rights_in(v)),
        Reason::InsufficientRights,
    )
}

// The refusal of a movement between two types, by their words.
#[tactic(auto, using(crate::proofs::Laws::moves_others))]
fn movement_of_words(index: &Index, m: u64, i: u8, n: u64, j: u8) -> Result<(), Reason>
    ensures { result ≡ failure (moves (type_in index.now m i) (type_in index.now n j)) }
{
    let v = type_word_as(index, m, i);
    let w = type_word_as(index, n, j);
    if is_array_type(v) & is_array_type(w) {
        return array_movement(index, m, i, v, n, j, w);
    }
    require(is_alike_head(v, w), Reason::TypeMismatch)?;
    require(is_covered(v, w), Reason::InsufficientRights)
}

// A QT read alike as two names, as one without ?R always is.
#[tactic(auto, using(crate::proofs::Laws::read_alike))]
fn is_read_alike(index: &Index, m: u64, n: u64, i: u8) -> bool
    requires { UsesTold index.now }
    ensures { result ≡ true → type_in index.now m i ≡ type_in index.now n i }
{
    (m == n) | !uses_name(index, i)
}

// The refusal of a movement from QT i to QT j: of type, then of rights; none where the type moves to itself. Two calls, so that the compiler keeps the words
// out of the way of most movements, which are of one type.
#[tactic(auto, using(crate::proofs::Laws::moves_itself))]
pub fn movement(index: &Index, m: u64, i: u8, n: u64, j: u8) -> Result<(), Reason>
    requires { UsesTold index.now }
    ensures { result ≡ failure (moves (type_in index.now m i) (type_in index.now n j)) }
{
    if i == j {
        if is_read_alike(index, m, n, i) {
            return Ok(());
        }
        return movement_of_words(index, m, i, n, i);
    }
    movement_of_words(index, m, i, n, j)
}

// The same in a sheet's index, which tells of ?R.
#[tactic(auto, using(index::proofs::Ready::of_sheet))]
pub fn movement_in(s: Sheet, m: u64, i: u8, n: u64, j: u8) -> Result<(), Reason>
    ensures { result ≡ failure (moves (type_in s.entry.index.now m i) (type_in s.entry.index.now n j)) }
{
    movement(s.index, m, i, n, j)
}

// QT i ≥ QT j.
#[tactic(auto, using(model::proofs::Order::moves_order))]
pub fn is_above(index: &Index, m: u64, i: u8, n: u64, j: u8) -> bool
    requires { UsesTold index.now }
    ensures { result ≡ order (type_in index.now m i) (type_in index.now n j) }
{
    movement(index, m, i, n, j).is_ok()
}
