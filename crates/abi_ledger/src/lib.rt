// Document 01, "The list of demand 3", for callers in C: lists of calls through the C interface. It has no code.
#![tactic(auto)]
