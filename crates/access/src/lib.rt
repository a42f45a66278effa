// The access rules, record by record: refusals 6 to 9, 20 and 21.
#![tactic(auto)]

pub mod passes; // all records in their order
