// reciprocal_to_normal.rs: the strengths of a triplet's slots, from the force constants in reciprocal space.
//
// Loops run over numbers of bands, components and atoms: a turn reads and writes several arrays, at places that are worked from the
// number, and where one of them is a slice of its own (bands, masses, eigenvectors) the number says where in the others. `out`, `flags`
// and the work buffer are lent side by side: of a struct of them no two parts are lent at once (decision 74).
#![tactic(auto)]

pub mod columns;
pub mod contract;
pub mod dot;
pub mod gather;
pub mod listing;
pub mod operands;
pub mod places;
pub mod plane;
pub mod row;
pub mod scale;
pub mod slots;
pub mod strength;
