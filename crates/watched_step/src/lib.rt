// The watched machine: one instruction inside the lent memory.
#![tactic(auto)]

pub mod step; // one instruction
