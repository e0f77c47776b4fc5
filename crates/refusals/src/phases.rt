// Number 9: every phase that the work computes lies within the domain of the sine and cosine.
ghost use Rattle.std.specs.Prelude.{◌≡◌, ◌&&◌, ◌*◌, ◌<◌};
ghost use Rattle.phonon.specs.Handed.{grid_of, tables_of};
ghost use Rattle.phonon.specs.Sets.{part};
ghost use Rattle.phonon.specs.Tests.{every_below};
ghost use Rattle.phonon.specs.Trig.{in_domain};
ghost use Rattle.phonon.specs.Interaction.{order_count, legs_at};
ghost use Rattle.phonon.specs.RealToReciprocal.{pre_phase, anchor_vector};
ghost use Rattle.phonon.specs.Refusal.{leg_phases_ok, pre_phases_ok, orders_ok};
ghost use Rattle.real_to_reciprocal.specs.Shape.{Anchored, Ranged};
ghost use Rattle.refusals.specs.Phases.{Located, Readable, points_fine};

use funcs::in_domain;
use phonon::{Crystal, Grid, Legs, Symmetry, Tables};
use planes::{index_at, order_at, part_of};
use real_to_reciprocal::phases::{anchor_vector, compute_q_vec, phase, pre_phase};

// Each vector of each entry of the multiplicities, at the q of the three legs. One pass reads each vector once, and by
// `&` no branch depends on a phase: a way out at the first bad one would help only sets that are turned away.
// Leg by leg: `phase` asks that vector v is there, which a closure for `map` would have to say by a clause of its own.
fn legs_phases_ok(q: &Legs<[f64; 3]>, vectors: &[f64], multiplicity: &[i64], entries: usize) -> bool
    requires { Ranged vectors.now multiplicity.now entries }
    ensures { result ≡ (leg_phases_ok vectors.now multiplicity.now entries q.now.leg0
        && leg_phases_ok vectors.now multiplicity.now entries q.now.leg1
        && leg_phases_ok vectors.now multiplicity.now entries q.now.leg2) }
{
    let mut good = true;
    for n in 0..entries {
        let count = index_at(multiplicity, 2 * n);
        let start = index_at(multiplicity, 2 * n + 1);
        // From 0 on, as the definition counts the vectors of an entry.
        for i in 0..count {
            let v = start + i;
            let x = in_domain(phase(&q.leg0, vectors, v));
            let y = in_domain(phase(&q.leg1, vectors, v));
            let z = in_domain(phase(&q.leg2, vectors, v));
            good = good & (x & y & z);
        }
    }
    good
}

// Atom i, with the three q in one order.
// `Anchored` is asked of three functions: a struct refuses it as a ghost field, since it holds two numbers beside its facts.
fn pre_phase_ok(q: &Legs<[f64; 3]>, crystal: &Crystal<'_>, atoms: usize, i: usize) -> bool
    requires { (i < atoms)
        × Anchored crystal.now.vectors.now crystal.now.multiplicity.now crystal.now.forces.p2s.now atoms }
    ensures { result ≡ in_domain (pre_phase crystal.now.vectors.now q.now
        (anchor_vector atoms crystal.now.multiplicity.now crystal.now.forces.p2s.now i)) }
{
    in_domain(pre_phase(crystal.vectors, q, anchor_vector(crystal, atoms, i)))
}

// Each atom.
fn pre_phases_ok(q: &Legs<[f64; 3]>, crystal: &Crystal<'_>, atoms: usize) -> bool
    requires { Anchored crystal.now.vectors.now crystal.now.multiplicity.now crystal.now.forces.p2s.now atoms }
    ensures { result ≡ pre_phases_ok atoms crystal.now.vectors.now crystal.now.multiplicity.now
        crystal.now.forces.p2s.now q.now }
{
    (0..atoms).all(|i| pre_phase_ok(q, crystal, atoms, i))
}

fn order_count(symmetry: Symmetry) -> usize
    ensures { result ≡ order_count symmetry }
{
    match symmetry {
        Symmetry::Off => 1,
        Symmetry::Symmetrized => 6,
    }
}

// Each order of the legs that is used.
fn orders_ok(q: &Legs<[f64; 3]>, symmetry: Symmetry, crystal: &Crystal<'_>, atoms: usize) -> bool
    requires { Anchored crystal.now.vectors.now crystal.now.multiplicity.now crystal.now.forces.p2s.now atoms }
    ensures { result ≡ orders_ok atoms symmetry crystal.now.vectors.now crystal.now.multiplicity.now
        crystal.now.forces.p2s.now q.now }
{
    (0..order_count(symmetry)).all(|o| pre_phases_ok(&q.picked(order_at(o)), crystal, atoms))
}

// The q of a triplet's three points. real_to_normal makes them from the counts that it keeps beside them; here no counts are kept.
fn legs_at(grid: &Grid<'_>, points: &[i64]) -> Legs<[f64; 3]>
    requires { Located 3 points.now grid.now.addresses.now }
    ensures { result ≡ legs_at (grid_of grid.now) points.now }
{
    Legs {
        leg0: compute_q_vec(grid, index_at(points, 0)),
        leg1: compute_q_vec(grid, index_at(points, 1)),
        leg2: compute_q_vec(grid, index_at(points, 2)),
    }
}

// One triplet: its three legs, and each order of them that is used. The work computes the phases that pass once more.
// The tests may not leave them in the work buffer: they end before the first write, and a set that is turned away
// leaves all lent memory untouched.
pub fn phases_ok(tables: &Tables<'_>, points: &[i64]) -> bool
    requires { Readable (tables_of tables.now) 3 points.now }
    ensures { result ≡ points_fine (tables_of tables.now) points.now }
{
    let m = tables.measures;
    let crystal = &tables.crystal;
    let q = legs_at(&tables.grid, points);
    legs_phases_ok(
        &q,
        crystal.vectors,
        crystal.multiplicity,
        m.supercell * m.atoms,
    ) & orders_ok(&q, tables.symmetry, crystal, m.atoms)
}

// Each triplet of a list.
pub fn list_phases_ok(tables: &Tables<'_>, list: usize, triplets: &[i64]) -> bool
    requires { Readable (tables_of tables.now) (list * 3) triplets.now }
    ensures { result ≡ every_below (λ t. points_fine (tables_of tables.now) (part 3 t triplets.now)) list }
{
    (0..list).all(|t| phases_ok(tables, part_of(triplets, t, 3)))
}
