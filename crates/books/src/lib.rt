// The home's books as definitions and laws; crate counters has their code. Nothing here runs: see specs/.
#![tactic(auto)]
