// Document 01's P cases, proved over the definitions. Nothing here runs.
#![tactic(auto)]
