// One stretch of the lent store of n ports at a time: where it begins, what it says, and what an event, an entry or an owner does to
// it. Its part of the store is lent to the function that knows it.
#![tactic(auto)]

pub mod reads; // a store that is read
pub mod stretch; // the stretches, and where they begin
pub mod writes; // a store that is written
