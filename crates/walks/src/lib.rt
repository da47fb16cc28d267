// Walks by hand of functions that a host calls with a reference to a record: the record is copied out and handed on by value. There is no code here:
// each law in proofs/ is over any record and any callee. No contract needs them today.
#![tactic(auto)]
