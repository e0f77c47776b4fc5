// real_to_normal_sym_q of interaction.rs: the strengths of one triplet that is symmetrized.
ghost use Rattle.std.specs.Prelude.{◌≡◌, cond, ◌*◌, ◌≤◌, length, get_or};
ghost use Rattle.phonon.specs.Number.{◌⊕◌, ◌⊘◌, f0, f6, at, flagged, fold, table};
ghost use Rattle.phonon.specs.Handed.{tables_of};
ghost use Rattle.phonon.specs.Interaction.{picked};
ghost use Rattle.phonon.specs.ReciprocalToNormal.{strength};
ghost use Rattle.planes.specs.Region.{SameOutside};
ghost use Rattle.real_to_normal.specs.Work.{legs_end, work_end, slot_count, Shapes, Frequencies, Slots, Order, Factored, reciprocal_of, slot_in, sixth_of};

use crate::layout::Layout;
use crate::order::{operands_of, order_constants};
use crate::points::Points;
use planes::order_at;
use reciprocal_to_normal::gather::{Listing, gather_sixth};
use reciprocal_to_normal::listing::full_strengths;

// Adds to each slot that is not flagged a sixth of its strength with the legs in this order. The legs have been
// prepared in w.
fn add_order(out: &mut [f64], flags: &[u8], w: &mut [f64], p: &Points<'_>, order: [usize; 3])
    requires sizes { (1 ≤ p.now.tables.now.measures.atoms)
        × Shapes (tables_of p.now.tables.now)
        × (work_end p.now.tables.now.measures ≤ length w.old) }
    requires points { Frequencies (3 * p.now.tables.now.measures.atoms) p.now.tables.now.phonons.frequencies.now p.now.g }
    requires factors { Factored w.old (tables_of p.now.tables.now) p.now.q }
    requires slots { Slots (tables_of p.now.tables.now) flags.now out.old }
    requires legs { Order order }
    ensures { (out.new ≡ table (slot_count (tables_of p.now.tables.now))
        (λ m. cond (flagged flags.now m) (at out.old m)
        (at out.old m ⊕ strength p.now.tables.now.measures.atoms
        (reciprocal_of (tables_of p.now.tables.now) (picked p.now.q (get_or order 0 0) (get_or order 1 0) (get_or order 2 0)))
        (slot_in w.old p.now.tables.now.measures.atoms p.now.tables.now.phonons.frequencies.now p.now.g p.now.tables.now.bands.now
        (get_or order 0 0) (get_or order 1 0) (get_or order 2 0) m)
        p.now.tables.now.settings.cutoff ⊘ f6)))
        × SameOutside w.old w.new (legs_end p.now.tables.now.measures) (work_end p.now.tables.now.measures) }
{
    order_constants(w, p, order);
    let o = operands_of(p, order);
    let listing = Listing {
        at: Layout::of(p.tables.measures).listing,
        bands: 3 * o.atoms,
        order,
    };
    full_strengths(w, listing.at, &o);
    gather_sixth(out, flags, w, &listing, p.tables.bands);
}

// All slots 0.0, and then to each that is not flagged a sixth of its strength in each of the six orders, in turn: by its number, as the
// definition counts them, since their table stays with planes.
pub fn real_to_normal_sym_q(out: &mut [f64], flags: &[u8], w: &mut [f64], p: &Points<'_>)
    requires sizes { (1 ≤ p.now.tables.now.measures.atoms)
        × Shapes (tables_of p.now.tables.now)
        × (work_end p.now.tables.now.measures ≤ length w.old) }
    requires points { Frequencies (3 * p.now.tables.now.measures.atoms) p.now.tables.now.phonons.frequencies.now p.now.g }
    requires factors { Factored w.old (tables_of p.now.tables.now) p.now.q }
    requires slots { Slots (tables_of p.now.tables.now) flags.now out.old }
    ensures { (out.new ≡ table (slot_count (tables_of p.now.tables.now))
        (λ m. cond (flagged flags.now m) f0 (fold 6 f0 (sixth_of (tables_of p.now.tables.now) p.now.q w.old p.now.g m))))
        × SameOutside w.old w.new (legs_end p.now.tables.now.measures) (work_end p.now.tables.now.measures) }
{
    out.fill(0.0);
    for o in 0..6 {
        add_order(out, flags, w, p, order_at(o));
    }
}
