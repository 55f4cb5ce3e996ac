// Document 01 §6: its texts, byte for byte, and what they do, by document 01 and on the panel's processor. Read specs/Vectors.antt; there is no code here.
#![tactic(auto)]
