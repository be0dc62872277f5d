// The machine as definitions and laws; crate acts has its code. Nothing here runs: see specs/.
#![tactic(auto)]
