// How long an edge is held, of the engine: a machine at a bounded pair comes to level 0 within that many cycles, whatever the events. There is no
// code here: the theorems are about what `bound` and the machine's functions promise. Their statements are in specs/Delay.antt, their proofs in
// proofs/.
#![tactic(auto)]
