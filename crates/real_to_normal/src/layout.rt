// Where the numbers of each stage stand in the work buffer: the table is in specs/Work.antt.
ghost use Rattle.std.specs.Prelude.{◌≡◌, ◌+◌, ◌*◌, ◌^◌, ◌<◌};
ghost use Rattle.real_to_normal.specs.Work.{places};

use phonon::{Legs, Measures};

// Where each leg's numbers begin, of `size` numbers a leg from `base` on.
pub fn places(base: usize, size: usize) -> Legs<usize>
    requires { base + 3 * size < 2 ^ 64 }
    ensures { result ≡ places base size }
{
    Legs {
        leg0: base,
        leg1: base + size,
        leg2: base + 2 * size,
    }
}

// Where they begin: each leg's scaled eigenvectors and phase factors, the pre-factors, the force constants in reciprocal space, what the
// contraction writes besides, and the full listing of one leg order.
#[derive(Clone, Copy)]
pub struct Layout {
    pub columns: Legs<usize>,
    pub factors: Legs<usize>,
    pub pre: usize,
    pub constants: usize,
    pub scratch: usize,
    pub listing: usize,
}

impl Layout {
    ghost use Rattle.std.specs.Prelude.{◌≡◌, ◌+◌, ◌*◌, ◌≤◌};
    ghost use Rattle.real_to_normal.specs.Work.{columns_at, pre_at, constants_at, scratch_at, listing_at, places};

    // For a set of these measures.
    pub fn of(m: Measures) -> Layout
        requires { (m.atoms ≤ 1000) × (m.supercell ≤ 1000) }
        ensures { (result.columns ≡ places m.atoms (2 * (3 * m.atoms * (3 * m.atoms))))
            × (result.factors ≡ places (columns_at m.atoms 3) (2 * (m.atoms * m.supercell)))
            × (result.pre ≡ pre_at m.atoms m.supercell)
            × (result.constants ≡ constants_at m.atoms m.supercell)
            × (result.scratch ≡ scratch_at m.atoms m.supercell)
            × (result.listing ≡ listing_at m.atoms m.supercell) }
    {
        let np = m.atoms;
        let nb = 3 * np;
        let columns = 2 * (nb * nb);
        let factors = 2 * (np * m.supercell);
        let behind = np + 3 * columns;
        let pre = behind + 3 * factors;
        let constants = pre + 2 * np;
        let scratch = constants + 2 * (nb * (nb * nb));
        Layout {
            columns: places(np, columns),
            factors: places(behind, factors),
            pre,
            constants,
            scratch,
            listing: scratch + columns + 4 * nb,
        }
    }
}
