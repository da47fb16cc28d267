// Property 3 over the machine and the checker: from an accepted power-on, no list of events faults in which each Run has a mask that the checker
// passes. There is no code here: the theorems are about what the functions below promise. Their statements are in specs/ (Property3, Reports, Table), their proofs in proofs/.
#![tactic(auto)]
