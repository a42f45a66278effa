// The index of a sheet: a word for each qualified type and for each procedure, made once from the bytes and lent to all that is above. Nothing above reads a
// QT of the sheet, and a later table is more words of the same array.
#![tactic(auto, unfolding(crate::specs::Types::word_in, crate::specs::Types::shape_of, crate::specs::Types::rights_of, crate::specs::Types::element_of, crate::specs::Types::uses_of, crate::specs::Types::element_below, crate::specs::Types::read_word, crate::specs::Types::word_as, crate::specs::Types::name_type))]

pub mod sheets; // a sheet with its index
pub mod types; // the qualified types by their numbers
pub mod procedures; // the procedures by theirs
pub mod make; // the index from the bytes

// 64 words of qualified types, then 65 of procedures: the last of these has the place where the records end. One array of a fixed size,
// for there is no heap.
pub type Index = [u64; 129];
