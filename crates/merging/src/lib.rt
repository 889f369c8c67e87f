// Two antennas, one instant: two messages with one time, in either order, leave one listing. Theorems over the rules and over the contracts of `table` and `report`, and no code.
#![tactic(auto)]
