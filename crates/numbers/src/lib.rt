// The ground laws, and no code: signed numbers as the code has them, sizes, squares and roots, and the
// move from ℤ to ℕ for order facts. It knows nothing of points or maps. Any crate's proofs may cite it.

#![tactic(auto)]
