// The bytes of a sheet (document 01: worksheet): its fields, its records, its instructions.
#![tactic(auto, unfolding(crate::specs::Bytes::byte_at, crate::specs::Bytes::whole_at, crate::specs::Bytes::marked_at, crate::specs::Layout::inner_at, crate::specs::Layout::need_at, crate::specs::Layout::slot_of, crate::specs::Layout::k_at, crate::specs::Layout::code_at, crate::specs::Layout::variable_at, crate::specs::Layout::instruction_from, crate::specs::Layout::start_from, crate::specs::Layout::bound_size, crate::specs::Layout::is_bounded, crate::specs::Layout::type_at, crate::specs::Layout::qual_at, crate::specs::Layout::types_of, crate::specs::Reader::left_at, crate::specs::Reader::past_at, crate::specs::Reader::size_at, crate::specs::Decode::operation_at, crate::specs::Decode::instruction_in))]

pub mod bytes; // single bytes and words, marks, what stands whole
pub mod edition; // what the edition decides: how many bytes rights take
pub mod places; // where each record starts
pub mod quals; // the fields of a QT
pub mod fields; // the fields of a record at a known place, by one test each
pub mod records; // one record as part of the sheet, where it ends, what is left
pub mod decode; // the operation that the fields of an instruction are
pub mod fetch; // the same where its record stands whole
