// What C is promised of listings: theorems over the contracts of the functions that print, feed and check them, and no code.
#![tactic(auto)]
