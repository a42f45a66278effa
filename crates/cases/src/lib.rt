// Worked cases, proved by computation: the paper's K1 to K12, sheets that are accepted and run, and refused ones on which the machines part.
#![tactic(auto)]
