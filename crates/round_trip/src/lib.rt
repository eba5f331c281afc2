#![tactic(auto)]

// The text form of a table is read as the table again, and so its bytes. Definitions and proofs; no code.
