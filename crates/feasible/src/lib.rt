// A right plan, in any parts, leaves no job over its end and no overfull staircase: laws, in specs/. There is no code here.
#![tactic(auto)]
