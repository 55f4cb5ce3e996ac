// Claim 3: what it is for an image to keep the meaning of a program. Read specs/Keeps.antt; there is no code here.
#![tactic(auto)]
