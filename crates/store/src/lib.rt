// The lent store as definitions and laws; crates form and stretches have its code. Nothing here runs: see specs/.
#![tactic(auto)]
