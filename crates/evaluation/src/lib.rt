// What evaluation is: the value and the trees of a forward call. Its definitions are in specs/, its laws there and in proofs/, and no code is needed.
#![tactic(auto)]
