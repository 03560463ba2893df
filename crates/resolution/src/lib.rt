// The theory of SLD resolution. Its definitions are in specs/, its theorems there and in proofs/, and no code is needed.
#![tactic(auto)]
