// Claims as sentences of SMT-LIB 2.6: what they mean, their text, and that the text says what the claim says. Definitions and theorems alone.

#![tactic(auto)]
