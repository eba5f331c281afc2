#![tactic(auto)]

// Which bytes a list of tasks and rows has. Definitions and proofs; no code.
