// The theory of terms and unification. Its definitions are in specs/, its theorems there and in proofs/, and no code is needed.
#![tactic(auto)]
