// For a host that links both libraries and lends one machine record: Property 3, and how long an edge is held. The theorems are proofs/Property3.antt
// and proofs/Delay.antt, their statements specs/Property3.antt and specs/Delay.antt; there is no code.
#![tactic(auto)]
