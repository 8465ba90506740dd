// Why a bound is too tight (document 01): staircases, reasons and the least lateness, in specs/.
#![tactic(auto)]
