#![tactic(auto)]

// What a run of tasks on one processor is, and that the answers of the equation are right about every run. Definitions and proofs; no code.
