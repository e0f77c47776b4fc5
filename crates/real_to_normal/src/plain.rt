// real_to_normal of interaction.rs: the strengths of one triplet that is not symmetrized.
ghost use Rattle.std.specs.Prelude.{◌≡◌, cond, ◌*◌, ◌≤◌, length};
ghost use Rattle.phonon.specs.Number.{at, flagged, table};
ghost use Rattle.phonon.specs.Handed.{tables_of};
ghost use Rattle.phonon.specs.ReciprocalToNormal.{strength};
ghost use Rattle.planes.specs.Region.{SameOutside};
ghost use Rattle.real_to_normal.specs.Work.{legs_end, work_end, slot_count, Shapes, Frequencies, Slots, Factored, reciprocal_of, slot_in};

use crate::order::{operands_of, order_constants};
use crate::points::Points;
use reciprocal_to_normal::slots::reciprocal_to_normal_squared;

// Writes the slots that are not flagged. The legs have been prepared in w.
pub fn real_to_normal(out: &mut [f64], flags: &[u8], w: &mut [f64], p: &Points<'_>)
    requires sizes { (1 ≤ p.now.tables.now.measures.atoms)
        × Shapes (tables_of p.now.tables.now)
        × (work_end p.now.tables.now.measures ≤ length w.old) }
    requires points { Frequencies (3 * p.now.tables.now.measures.atoms) p.now.tables.now.phonons.frequencies.now p.now.g }
    requires factors { Factored w.old (tables_of p.now.tables.now) p.now.q }
    requires slots { Slots (tables_of p.now.tables.now) flags.now out.old }
    ensures { (out.new ≡ table (slot_count (tables_of p.now.tables.now))
        (λ m. cond (flagged flags.now m) (at out.old m)
        (strength p.now.tables.now.measures.atoms (reciprocal_of (tables_of p.now.tables.now) p.now.q)
        (slot_in w.old p.now.tables.now.measures.atoms p.now.tables.now.phonons.frequencies.now p.now.g p.now.tables.now.bands.now 0 1 2 m)
        p.now.tables.now.settings.cutoff)))
        × SameOutside w.old w.new (legs_end p.now.tables.now.measures) (work_end p.now.tables.now.measures) }
{
    let order = [0, 1, 2];
    order_constants(w, p, order);
    let o = operands_of(p, order);
    reciprocal_to_normal_squared(out, flags, w, &o, p.tables.bands);
}
