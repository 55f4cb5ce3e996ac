// The symbolic processor, which code is made for and proved on, and its lockstep with the processor of document 03: definitions and laws. There is no code here.
#![tactic(auto)]
