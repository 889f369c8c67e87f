// Demand 3, a stranger's message does nothing to yours; that both forms of the table answer alike; and that a replay is the table: theorems over the rules and over the contracts of `table`, `stamps`, `slice_table` and `replay`, and no code.
#![tactic(auto)]
