// The three demands, as theorems over the definitions that the contracts of `rules::check` and `ask::ask` cite.
// There is no code here: read specs/Demands.antt, then Runs.antt and Bays.antt beside it.

#![tactic(auto)]
