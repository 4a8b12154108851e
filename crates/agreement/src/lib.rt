#![tactic(auto)]

// The theorems about document 01's emission (proofs/): what it does, that it is well formed, its counts, its fit; and that a running circuit's bits
// past its wires stay zero. This crate has no code.
