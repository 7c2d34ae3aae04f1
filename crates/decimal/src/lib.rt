// The decimal of a number, as ASCII bytes, and its laws; no code. What reads numbers from text and what writes them cite
// it, so that both mean the same decimal.

#![tactic(auto)]
