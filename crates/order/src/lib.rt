// Lists under any strict order, and no code: placing, sorting, the first k kept one at a time, and in what turn they may
// come. Nothing here knows of maps or distances. The search's proofs and the demands cite it.

#![tactic(auto)]
