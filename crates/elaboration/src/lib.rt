// What elaboration owes the interpreter and the compiler's theorem: laws of an accepted program. Read proofs/Accepted.antt; there is no code here.
#![tactic(auto)]
