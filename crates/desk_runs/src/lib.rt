// What is said of runs in which a desk flies the core, and of the logs of such flights: definitions in specs/, theorems in proofs/. No code.
#![tactic(auto)]
