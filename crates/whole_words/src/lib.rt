// The tokens of a text are its words, whole. The definitions and laws are in specs/, the theorem is in proofs/, and no code is needed.
//
// A crate of its own above `words`: nothing there rests on these laws, and in `words` they would be checked again with each must-fail edit.
#![tactic(auto)]
