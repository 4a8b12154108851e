#![tactic(auto)]

// Theorems for the reader (proofs/): tables that use only bases 0 and 1 mean what they did before base 2 came, and the controls of the emission are put
// in by plain insertion. The definitions they compare (specs/) are the model's once more, over what the two are varied in. This crate has no code.
