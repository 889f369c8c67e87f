// What C is promised of tables side by side: theorems over the contracts of the functions of the header, and no code.
#![tactic(auto)]
