// Laws of the assembler: what the bytes of a text that it accepts read as; that every printed instruction assembles to its bytes, and no two are
// printed alike; that the lines and the operands are those of a grammar, with its values; and which words are fixed. There is no code here: the
// theorems are about what `assembler` promises. Their statements are in specs/ (Fixed, Grammar, Lines, Printed, Syntax, Unique), their proofs in
// proofs/.
#![tactic(auto)]
