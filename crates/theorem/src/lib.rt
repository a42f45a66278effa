// Condition 3 over the bytes of a sheet: stated in specs/, proved in proofs/.
#![tactic(auto)]
