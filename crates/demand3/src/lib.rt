// Document 01, "The list of demand 3": lists of calls through any interface, the ledger, and the claim about them. It has no code.
#![tactic(auto)]
