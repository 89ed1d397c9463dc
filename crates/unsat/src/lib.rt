// From a claim over sets to a solver's answer: the writer takes every emission, and "unsat" for its text says that the claim is true at every size. Theorems alone.

#![tactic(auto)]
