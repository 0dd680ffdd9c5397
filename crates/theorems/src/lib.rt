// What the rules' definitions promise, as theorems over a table's bytes: see specs/.
#![tactic(auto)]
