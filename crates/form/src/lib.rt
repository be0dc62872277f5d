// The full check of whether a lent store is well formed, and START.
#![tactic(auto)]

pub mod check; // the full check
mod counts; // its part on object bytes, holdings and transits
mod entries; // its part on lanes
pub mod start; // START
