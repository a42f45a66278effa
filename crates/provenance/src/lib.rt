// Where a right came from (document 02, S-4), over a program: defined and stated in specs/, proved in proofs/.
#![tactic(auto)]
