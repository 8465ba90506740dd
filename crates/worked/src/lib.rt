// Document 01's worked cases, proved against the definitions, in specs/. There is no code here.
#![tactic(auto)]
