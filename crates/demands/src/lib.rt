// The customer's demands 2 and 3 over the definitions. Nothing here runs: see specs/.
#![tactic(auto)]
