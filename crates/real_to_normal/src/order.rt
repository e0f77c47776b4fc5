// One leg order of one triplet: the legs picked in this order, and the force constants in reciprocal space.
ghost use Rattle.std.specs.Prelude.{◌≡◌, ◌*◌, ◌≤◌, length, get_or};
ghost use Rattle.phonon.specs.Handed.{tables_of};
ghost use Rattle.phonon.specs.Sets.{part};
ghost use Rattle.phonon.specs.Interaction.{picked};
ghost use Rattle.planes.specs.Region.{SameOutside};
ghost use Rattle.planes.specs.Layout.{constants_in};
ghost use Rattle.real_to_normal.specs.Operands.{OperandsOf};
ghost use Rattle.real_to_normal.specs.Work.{pre_at, constants_at, scratch_at, Shapes, Frequencies, Order, Factored, reciprocal_of};

use crate::layout::Layout;
use crate::points::Points;
use phonon::Legs;
use planes::part_of;
use real_to_reciprocal::blocks::FactorPlaces;
use real_to_reciprocal::phases::pre_phase_factors;
use real_to_reciprocal::real_to_reciprocal;
use reciprocal_to_normal::operands::Operands;

// The frequencies of nb bands at each leg's grid point: the caller's own stretches, uncopied.
pub fn frequencies_of(frequencies: &[f64], g: Legs<usize>, nb: usize) -> Legs<&[f64]>
    requires { Frequencies nb frequencies.now g }
    ensures { ((result.leg0.now ≡ part nb g.leg0 frequencies.now) × (length result.leg0.now ≡ nb))
        × ((result.leg1.now ≡ part nb g.leg1 frequencies.now) × (length result.leg1.now ≡ nb))
        × ((result.leg2.now ≡ part nb g.leg2 frequencies.now) × (length result.leg2.now ≡ nb)) }
{
    Legs {
        leg0: part_of(frequencies, g.leg0, nb),
        leg1: part_of(frequencies, g.leg1, nb),
        leg2: part_of(frequencies, g.leg2, nb),
    }
}

// The force constants in reciprocal space, with the legs in this order.
pub fn order_constants(w: &mut [f64], p: &Points<'_>, order: [usize; 3])
    requires sizes { Shapes (tables_of p.now.tables.now)
        × Order order
        × (scratch_at p.now.tables.now.measures.atoms p.now.tables.now.measures.supercell ≤ length w.old) }
    requires factors { Factored w.old (tables_of p.now.tables.now) p.now.q }
    ensures { (constants_in w.new (constants_at p.now.tables.now.measures.atoms p.now.tables.now.measures.supercell) p.now.tables.now.measures.atoms
        ≡ reciprocal_of (tables_of p.now.tables.now) (picked p.now.q (get_or order 0 0) (get_or order 1 0) (get_or order 2 0)))
        × SameOutside w.old w.new (pre_at p.now.tables.now.measures.atoms p.now.tables.now.measures.supercell)
        (scratch_at p.now.tables.now.measures.atoms p.now.tables.now.measures.supercell) }
{
    let tables = p.tables;
    let np = tables.measures.atoms;
    let at = Layout::of(tables.measures);
    let q = p.q.picked(order);
    pre_phase_factors(w, at.pre, &q, &tables.crystal, np);
    let f = FactorPlaces {
        pre: at.pre,
        legs: at.factors.picked(order),
    };
    real_to_reciprocal(
        w,
        at.constants,
        f,
        tables.settings.anchoring,
        &tables.crystal.forces,
        np,
        tables.measures.supercell,
    );
}

// What the strengths are worked from, with the legs in this order.
pub fn operands_of<'a>(p: &Points<'a>, order: [usize; 3]) -> Operands<'a>
    requires sizes { (1 ≤ p.now.tables.now.measures.atoms) × Shapes (tables_of p.now.tables.now) × Order order }
    requires points { Frequencies (3 * p.now.tables.now.measures.atoms) p.now.tables.now.phonons.frequencies.now p.now.g }
    ensures { OperandsOf (tables_of p.now.tables.now) (picked p.now.g (get_or order 0 0) (get_or order 1 0) (get_or order 2 0))
        (get_or order 0 0) (get_or order 1 0) (get_or order 2 0) result }
{
    let tables = p.tables;
    let np = tables.measures.atoms;
    let at = Layout::of(tables.measures);
    Operands {
        atoms: np,
        constants: at.constants,
        legs: at.columns.picked(order),
        scratch: at.scratch,
        freqs: frequencies_of(tables.phonons.frequencies, p.g.picked(order), 3 * np),
        cutoff: tables.settings.cutoff,
    }
}
