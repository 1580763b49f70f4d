// The worked trials of docs/RULES.md, of the IDs and of the paths, as one table: there is no code here, only specs/.
#![tactic(auto)]
