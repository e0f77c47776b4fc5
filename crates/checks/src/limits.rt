// Document 01's limits, as phonon's Limits states them. That of the phases is the domain of funcs::in_domain.
pub const MOST_ATOMS: usize = 8;

pub const MOST_SUPERCELL: usize = 64;

pub const MOST_GRID: usize = 65536;

pub const MOST_VECTORS: usize = 65536;

pub const MOST_LIST: usize = 4096;

// Lowest and highest stand as two constants: a range `a..=b` is refused here, as a call in a constant's value, and a struct of both would be
// taken apart wherever they are handed to is_within or all_within.
pub const LOWEST_ADDRESS: i64 = -1048576;

pub const HIGHEST_ADDRESS: i64 = 1048576;

pub const LOWEST_MESH: i64 = 1;

pub const HIGHEST_MESH: i64 = 4096;

pub const LOWEST_MATRIX: i64 = -4096;

pub const HIGHEST_MATRIX: i64 = 4096;

pub const LOWEST_WEIGHT: i64 = 1;

pub const HIGHEST_WEIGHT: i64 = 2147483647;
