// The plain machine: one instruction inside the lent memory.
#![tactic(auto)]

pub mod arms; // each operation: what it asks for, done
pub mod step; // one instruction
