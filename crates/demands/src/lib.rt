#![tactic(auto)]

// Theorems only: proofs/ has them, specs/ the words that they speak in.
