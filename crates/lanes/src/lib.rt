// One lane as definitions and laws; crate cursors has its code. Nothing here runs: see specs/.
#![tactic(auto)]
