// What is said of runs of calls, and the user's third demand over them: definitions in specs/, theorems in proofs/. No code.
#![tactic(auto)]
