// real_to_reciprocal.rs: the force constants in reciprocal space.
#![tactic(auto)]

pub mod blocks;
pub mod elements;
pub mod phases;
pub mod sums;
pub mod supercell;

ghost use Rattle.std.specs.Prelude.{◌≡◌, ◌*◌, ◌≤◌, length};
ghost use Rattle.phonon.specs.Handed.{forces_of};
ghost use Rattle.phonon.specs.RealToReciprocal.{reciprocal_from};
ghost use Rattle.planes.specs.Region.{SameOutside};
ghost use Rattle.planes.specs.Layout.{constants_in, numbers_in};
ghost use Rattle.real_to_reciprocal.specs.Shape.{Shaped};
ghost use Rattle.real_to_reciprocal.specs.Stored.{region_end, FactorsBelow};

use crate::blocks::{FactorPlaces, block, store_block};
use crate::supercell::{Supercell, first_copies, later_copies};
use phonon::{Anchoring, Forces, Legs};

// The force constants in reciprocal space, in the region of w from fo on. The factors lie below it, in planes.
pub fn real_to_reciprocal(
    w: &mut [f64],
    fo: usize,
    f: FactorPlaces,
    anchoring: Anchoring,
    forces: &Forces<'_>,
    np: usize,
    ns: usize,
)
    requires { (np ≤ 256)
        × (ns ≤ 256)
        × Shaped np ns (forces_of forces.now)
        × FactorsBelow fo f np ns
        × (region_end fo np ≤ length w.old) }
    ensures { (constants_in w.new fo np ≡ reciprocal_from np ns anchoring
        (forces_of forces.now)
        (numbers_in w.old f.pre np np)
        (record {
          leg0 = numbers_in w.old f.legs.leg0 (np * ns) (np * ns);
          leg1 = numbers_in w.old f.legs.leg1 (np * ns) (np * ns);
          leg2 = numbers_in w.old f.legs.leg2 (np * ns) (np * ns);
        }))
        × SameOutside w.old w.new fo (region_end fo np) }
{
    let mut first: [u16; 256] = [0; 256];
    let mut later: [u16; 256] = [0; 256];
    first_copies(&mut first, forces.p2s, forces.s2p);
    later_copies(&mut later, forces.s2p);
    let cell = Supercell {
        forces: *forces,
        np,
        ns,
        first: &first,
        later: &later,
    };
    let mut t: [f64; 54] = [0.0; 54];
    for i in 0..np {
        for j in 0..np {
            for k in 0..np {
                let atoms = Legs {
                    leg0: i,
                    leg1: j,
                    leg2: k,
                };
                block(&mut t, w, f, &cell, anchoring, atoms);
                store_block(w, fo, np, atoms, &t);
            }
        }
    }
}
