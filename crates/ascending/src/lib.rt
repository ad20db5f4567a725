// Lists of entries that ascend by their keys, each key once: definitions in specs/, laws over any kind of entry in proofs/. No code.

#![tactic(auto)]
