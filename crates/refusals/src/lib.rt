// Document 01's refusals 1 to 9: every test of a set before any work. Each door's check joins the groups of tests
// that its set has, and gives the refusal of the lowest number.
#![tactic(auto)]

pub mod joined_set;
pub mod list;
pub mod phases;
pub mod tables;
pub mod triplet;
