// That the check of request Ten takes every log of our own: definitions in specs/, theorems in proofs/. No code.
#![tactic(auto)]
