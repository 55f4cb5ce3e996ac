// The compiler as functions of the core program, and the theorem that what it makes keeps the meaning: definitions and laws. There is no code here.
#![tactic(auto)]
