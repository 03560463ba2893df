// Names are taken and stored whole. The definitions and theorems are in specs/, and no code is needed.
//
// A crate of its own above `load`: no code rests on these laws, which join the layers from the text's bytes to the stored rows.
#![tactic(auto)]
