// Feasible amounts, cuts, and amounts wherever no cut violates: definitions and laws, in specs/. There is no code here.
#![tactic(auto)]
