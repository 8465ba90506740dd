// McNaughton's wrap: the rows of amounts (document 01, "Plans"), in specs/.
#![tactic(auto)]
