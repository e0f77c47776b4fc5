// The work of get_interaction_at_triplet of interaction.rs: the slots of one triplet, from the q and the grid points of its legs.
ghost use Rattle.std.specs.Prelude.{◌≡◌, ◌*◌, ◌≤◌, length};
ghost use Rattle.phonon.specs.Number.{at, table};
ghost use Rattle.phonon.specs.Handed.{phonons_of, tables_of};
ghost use Rattle.phonon.specs.Interaction as Interaction;
ghost use Rattle.phonon.specs.ReciprocalToNormal.{inverse_roots};
ghost use Rattle.phonon.specs.Refusal.{triplet_refusal};
ghost use Rattle.phonon.specs.Doors.{cleared};
ghost use Rattle.planes.specs.Region.{SameOutside};
ghost use Rattle.real_to_reciprocal.specs.Shape.{Ranged};
ghost use Rattle.real_to_normal.specs.Work.{work_end, slot_count, Shapes, Frequencies, Eigenvectors, Slots, reciprocal_of, slot_phonons, slot_value};

use crate::legs::prepare;
use crate::plain::real_to_normal;
use crate::points::Points;
use crate::symmetrized::real_to_normal_sym_q;
use phonon::{Legs, Symmetry, Tables};
use planes::{index_of, work_length};
use real_to_reciprocal::phases::compute_q_vec;

// The slots of one triplet.
fn slots_of(strengths: &mut [f64], flags: &[u8], work: &mut [f64], p: &Points<'_>)
    requires sizes { (1 ≤ p.now.tables.now.measures.atoms)
        × Shapes (tables_of p.now.tables.now)
        × (work_end p.now.tables.now.measures ≤ length work.old)
        × (p.now.tables.now.measures.atoms ≤ length p.now.tables.now.crystal.masses.now)
        × Ranged p.now.tables.now.crystal.vectors.now p.now.tables.now.crystal.multiplicity.now
        (p.now.tables.now.measures.supercell * p.now.tables.now.measures.atoms) }
    requires points { Frequencies (3 * p.now.tables.now.measures.atoms) p.now.tables.now.phonons.frequencies.now p.now.g
        × Eigenvectors (3 * p.now.tables.now.measures.atoms) p.now.tables.now.phonons.eigenvectors.now p.now.g }
    requires slots { Slots (tables_of p.now.tables.now) flags.now strengths.old }
    ensures { (strengths.new ≡ table (slot_count (tables_of p.now.tables.now))
        (λ m. slot_value p.now.tables.now.symmetry (reciprocal_of (tables_of p.now.tables.now)) p.now.tables.now.measures.atoms p.now.q
        (slot_phonons p.now.tables.now.measures.atoms (inverse_roots p.now.tables.now.measures.atoms p.now.tables.now.crystal.masses.now)
        (phonons_of p.now.tables.now.phonons) p.now.g p.now.tables.now.bands.now m)
        p.now.tables.now.settings.cutoff flags.now (at strengths.old m) m))
        × SameOutside work.old work.new 0 (work_end p.now.tables.now.measures) }
{
    prepare(work, p);
    match p.tables.symmetry {
        Symmetry::Off => real_to_normal(strengths, flags, work, p),
        Symmetry::Symmetrized => real_to_normal_sym_q(strengths, flags, work, p),
    }
}

// The worker of one triplet: the strengths of an accepted set, and the work buffer cleared.
pub fn work_triplet(
    tables: &Tables<'_>,
    triplet: [i64; 3],
    flags: &[u8],
    strengths: &mut [f64],
    work: &mut [f64],
)
    requires { triplet_refusal (record {
      tables = tables_of tables.now;
      triplet = triplet;
      flags = flags.now;
      strengths = strengths.old;
      work = work.old;
    }) ≡ 0 }
    ensures { (strengths.new ≡ Interaction.strengths (record {
      tables = tables_of tables.now;
      points = triplet;
      flags = flags.now;
    }) strengths.old)
        × (work.new ≡ cleared tables.now.measures work.old) }
{
    let n = work_length(tables.measures.atoms, tables.measures.supercell);
    let g = Legs {
        leg0: index_of(triplet[0]),
        leg1: index_of(triplet[1]),
        leg2: index_of(triplet[2]),
    };
    let q = Legs {
        leg0: compute_q_vec(&tables.grid, g.leg0),
        leg1: compute_q_vec(&tables.grid, g.leg1),
        leg2: compute_q_vec(&tables.grid, g.leg2),
    };
    slots_of(strengths, flags, work, &Points { tables, g, q });
    work[..n].fill(0.0);
}
