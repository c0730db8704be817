// The proof library for functions over a lent slice of structs. No code: see proofs/.

#![tactic(auto)]
