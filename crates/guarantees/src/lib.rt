// Guarantees that tie several crates together: statements in specs/, their proofs in proofs/. There is no code.
#![tactic(auto)]
