// What every crate may cite of lists, booleans, bits and totals: definitions in specs/, laws in proofs/. No code.

#![tactic(auto)]
