#![tactic(auto)]

// The sample texts of the programs, whole and to the letter, and the longest texts, as the checker computes them. Definitions and proofs; no code.
