// What acceptance gives to everything above, and no code: the nodes of an accepted map form a tree, every slot is
// reached from the root on one way, and what lies below a slot lies within its box. The search's proofs cite it.

#![tactic(auto)]
