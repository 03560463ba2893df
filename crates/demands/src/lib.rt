// Demands: what the entry points promise together, as theorems over their contracts. No code.
#![tactic(auto)]
