// Sums, counts and tests over lists: definitions and laws that the other crates cite. It has no code.
#![tactic(auto)]
