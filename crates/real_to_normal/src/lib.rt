// real_to_normal and real_to_normal_sym_q of interaction.rs: the strengths of one triplet of an accepted set.
#![tactic(auto)]

pub mod layout;
pub mod legs;
pub mod order;
pub mod plain;
pub mod points;
pub mod symmetrized;
pub mod triplet;
