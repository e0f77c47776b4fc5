// What the three legs give to the work buffer, once for each triplet: scaled eigenvectors and phase factors.
ghost use Rattle.std.specs.Prelude.{◌≡◌, ℕ, ◌+◌, ◌*◌, ◌<◌, ◌≤◌, length, take, drop};
ghost use Rattle.phonon.specs.Handed.{tables_of};
ghost use Rattle.phonon.specs.Interaction.{leg};
ghost use Rattle.phonon.specs.ReciprocalToNormal.{column};
ghost use Rattle.planes.specs.Region.{SameOutside};
ghost use Rattle.planes.specs.Layout.{column_in};
ghost use Rattle.real_to_reciprocal.specs.Shape.{Ranged};
ghost use Rattle.real_to_normal.specs.Work.{columns_at, legs_end, places, Eigenvectors, Prepared};

use crate::layout::Layout;
use crate::points::Points;
use phonon::Legs;
use real_to_reciprocal::phases::phase_factors;
use reciprocal_to_normal::scale::{inverse_roots, scale_eigenvectors};

// The eigenvectors at the legs' grid points g, scaled by the inverse roots at the start of w.
#[tactic(auto, using(crate::proofs::LegLaws::legs_scaled, crate::proofs::LegLaws::legs_outside))]
fn scale_legs(w: &mut [f64], at: Legs<usize>, eigenvectors: &[f64], np: usize, g: Legs<usize>)
    requires { (np ≤ 1000)
        × (at ≡ places np (2 * (3 * np * (3 * np))))
        × (columns_at np 3 ≤ length w.old)
        × Eigenvectors (3 * np) eigenvectors.now g }
    ensures { ((x n : ℕ) → x < 3 → n < 3 * np
        → column_in w.new (columns_at np x) (3 * np) n
        ≡ column (3 * np) eigenvectors.now (take np (drop 0 w.old)) (leg g x) n)
        × SameOutside w.old w.new np (columns_at np 3) }
{
    scale_eigenvectors(w, at.leg0, 0, eigenvectors, np, g.leg0);
    scale_eigenvectors(w, at.leg1, 0, eigenvectors, np, g.leg1);
    scale_eigenvectors(w, at.leg2, 0, eigenvectors, np, g.leg2);
}

// All that the legs give: inverse roots, scaled eigenvectors, phase factors.
pub fn prepare(w: &mut [f64], p: &Points<'_>)
    requires sizes { (p.now.tables.now.measures.atoms ≤ 1000)
        × (p.now.tables.now.measures.supercell ≤ 1000)
        × (legs_end p.now.tables.now.measures ≤ length w.old)
        × (p.now.tables.now.measures.atoms ≤ length p.now.tables.now.crystal.masses.now)
        × Ranged p.now.tables.now.crystal.vectors.now p.now.tables.now.crystal.multiplicity.now
        (p.now.tables.now.measures.supercell * p.now.tables.now.measures.atoms) }
    requires points { Eigenvectors (3 * p.now.tables.now.measures.atoms) p.now.tables.now.phonons.eigenvectors.now p.now.g }
    ensures { Prepared w.new (tables_of p.now.tables.now) p.now.g p.now.q
        × SameOutside w.old w.new 0 (legs_end p.now.tables.now.measures) }
{
    let tables = p.tables;
    let np = tables.measures.atoms;
    let at = Layout::of(tables.measures);
    inverse_roots(w, 0, tables.crystal.masses, np);
    scale_legs(w, at.columns, tables.phonons.eigenvectors, np, p.g);
    phase_factors(
        w,
        at.factors.leg0,
        &p.q,
        &tables.crystal,
        np,
        tables.measures.supercell,
    );
}
