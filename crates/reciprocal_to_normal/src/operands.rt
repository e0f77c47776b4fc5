// What the strengths of one leg order are worked from.
ghost use Rattle.std.specs.Prelude.{◌+◌, ◌*◌, ◌<◌, ◌≤◌, length};
ghost use Rattle.planes.specs.Split.{split, WroteSplit, strided};
ghost use Rattle.reciprocal_to_normal.specs.Arrays.{contracted};
ghost use Rattle.reciprocal_to_normal.specs.Places.{OperandsFit};

use crate::contract::contract_fc3_e0;
use crate::plane::Plane;
use phonon::Legs;

// The places of the force constants and of the three legs' scaled eigenvectors, all below `scratch`: from there on stand the matrix of one
// band of leg 0, its row, and what follows. The frequencies at the legs' grid points, and the cutoff.
#[derive(Clone, Copy)]
pub struct Operands<'a> {
    pub atoms: usize,
    pub constants: usize,
    pub legs: Legs<usize>,
    pub scratch: usize,
    pub freqs: Legs<&'a [f64]>,
    pub cutoff: f64,
    pub ghost fits: { OperandsFit atoms constants legs scratch (length freqs.leg0.now) (length freqs.leg1.now) (length freqs.leg2.now) },
}

impl<'a> Operands<'a> {
    ghost use Rattle.reciprocal_to_normal.specs.Plane.{PlaneOf};

    // The plane of band n of leg 0, whose matrix is written.
    pub fn plane(&self, w: &mut [f64], n: usize) -> Plane<'a>
        requires { (n < 3 * self.now.atoms) × (self.now.scratch + 2 * (3 * self.now.atoms * (3 * self.now.atoms)) ≤ length w.old) }
        ensures { PlaneOf self.now n result
            × WroteSplit w.old w.new self.now.scratch (3 * self.now.atoms * (3 * self.now.atoms)) (3 * self.now.atoms * (3 * self.now.atoms))
            (λ x. contracted (3 * self.now.atoms)
            (λ al. split w.old (self.now.constants + 2 * (al * (3 * self.now.atoms * (3 * self.now.atoms)))) (3 * self.now.atoms * (3 * self.now.atoms)) x)
            (strided w.old (self.now.legs.leg0 + n) (3 * self.now.atoms * (3 * self.now.atoms)) (3 * self.now.atoms))) }
    {
        let nb = 3 * self.atoms;
        contract_fc3_e0(w, self.scratch, self.constants, self.legs.leg0 + n, nb);
        Plane {
            atoms: self.atoms,
            matrix: self.scratch,
            leg1: self.legs.leg1,
            leg2: self.legs.leg2,
            row: self.scratch + 2 * (nb * nb),
            x: self.freqs.leg0[n],
            freqs1: self.freqs.leg1,
            freqs2: self.freqs.leg2,
            cutoff: self.cutoff,
        }
    }
}
