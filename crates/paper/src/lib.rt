// Document 004 as definitions. Nothing here runs: see specs/.
#![tactic(auto)]
