// The rules of the connection IDs as definitions on lists and numbers, and what they promise over any run of calls: there is no code here. proofs/ proves what specs/ states.
#![tactic(auto)]
