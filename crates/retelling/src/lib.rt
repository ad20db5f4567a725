// What is told of a channel reads back as it; what stands of a line's channel is told in no more bytes than the line had: claims in specs/, theorems in proofs/. No
// code.

#![tactic(auto)]
