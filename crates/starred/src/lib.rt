// Theorems only: the examples of the rules that are proved together, RULES 1.10. specs/ has the questions and the answers, proofs/ that they agree.
#![tactic(auto)]
