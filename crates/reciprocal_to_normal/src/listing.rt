// The full listing of one leg order of a symmetrized triplet: the strengths of all bands of all legs.
ghost use Rattle.std.specs.Prelude.{◌+◌, ◌*◌, ◌/◌, ◌%◌, ◌<◌, ◌≤◌, length};
ghost use Rattle.phonon.specs.ReciprocalToNormal.{strength};
ghost use Rattle.planes.specs.Layout.{constants_in, phonon_in};
ghost use Rattle.reciprocal_to_normal.specs.Slots.{bands_of, amplitude_in, strength_in, slot_in};
ghost use Rattle.reciprocal_to_normal.specs.Listing.{WroteAbove};

use crate::operands::Operands;
use crate::plane::Plane;

// At `to`, the strength of bands j and k of legs 1 and 2: one row contraction and one dot.
fn list_slot(w: &mut [f64], to: usize, p: &Plane<'_>, j: usize, k: usize)
    requires { (j < bands_of p.now) × (k < bands_of p.now) × (p.now.row + 2 * bands_of p.now ≤ to) × (to < length w.old) }
    ensures { WroteAbove w.old w.new p.now.row (p.now.row + 2 * bands_of p.now) to 1
        (λ i. strength_in p.now (amplitude_in w.old p.now j k) j k) }
{
    p.contract_leg2(w, k);
    w[to] = p.strength(p.dot(w, j), j, k);
}

// From `to` on, the strengths of band j of leg 1 and all bands of leg 2.
fn list_row(w: &mut [f64], to: usize, p: &Plane<'_>, j: usize)
    requires { (j < bands_of p.now) × (p.now.row + 2 * bands_of p.now ≤ to) × (to + bands_of p.now ≤ length w.old) }
    ensures { WroteAbove w.old w.new p.now.row (p.now.row + 2 * bands_of p.now) to (bands_of p.now)
        (λ k. strength_in p.now (amplitude_in w.old p.now j k) j k) }
{
    for k in 0..3 * p.atoms {
        list_slot(w, to + k, p, j, k);
    }
}

// From `to` on, the strengths of all bands of legs 1 and 2.
fn list_plane(w: &mut [f64], to: usize, p: &Plane<'_>)
    requires { (p.now.row + 2 * bands_of p.now ≤ to) × (to + bands_of p.now * bands_of p.now ≤ length w.old) }
    ensures { WroteAbove w.old w.new p.now.row (p.now.row + 2 * bands_of p.now) to (bands_of p.now * bands_of p.now) (slot_in w.old p.now) }
{
    let nb = 3 * p.atoms;
    for j in 0..nb {
        list_row(w, to + j * nb, p, j);
    }
}

// From `to` on, the strengths of all bands: number (b * nb + j) * nb + k is that of bands b, j, k. A row contraction is done for each number.
pub fn full_strengths(w: &mut [f64], to: usize, o: &Operands<'_>)
    requires { (o.now.scratch + 2 * (3 * o.now.atoms * (3 * o.now.atoms)) + 2 * (3 * o.now.atoms) ≤ to)
        × (to + 3 * o.now.atoms * (3 * o.now.atoms * (3 * o.now.atoms)) ≤ length w.old) }
    ensures { WroteAbove w.old w.new o.now.scratch (o.now.scratch + 2 * (3 * o.now.atoms * (3 * o.now.atoms)) + 2 * (3 * o.now.atoms)) to
        (3 * o.now.atoms * (3 * o.now.atoms * (3 * o.now.atoms)))
        (λ n. strength o.now.atoms (constants_in w.old o.now.constants o.now.atoms)
        (record {
          leg0 = phonon_in w.old o.now.legs.leg0 (3 * o.now.atoms) o.now.freqs.leg0.now (n / (3 * o.now.atoms) / (3 * o.now.atoms));
          leg1 = phonon_in w.old o.now.legs.leg1 (3 * o.now.atoms) o.now.freqs.leg1.now (n / (3 * o.now.atoms) % (3 * o.now.atoms));
          leg2 = phonon_in w.old o.now.legs.leg2 (3 * o.now.atoms) o.now.freqs.leg2.now (n % (3 * o.now.atoms));
        }) o.now.cutoff) }
{
    let nb = 3 * o.atoms;
    for b in 0..nb {
        let p = o.plane(w, b);
        list_plane(w, to + b * (nb * nb), &p);
    }
}
