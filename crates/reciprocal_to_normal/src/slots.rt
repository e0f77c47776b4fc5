// reciprocal_to_normal_squared: the strengths of the slots that are not flagged, in listing order b, k, j.
ghost use Rattle.std.specs.Prelude.{◌≡◌, true, cond, ◌+◌, ◌-◌, ◌*◌, ◌/◌, ◌%◌, ◌<◌, ◌≤◌, pos, length};
ghost use Rattle.phonon.specs.Number.{at, index, int, flagged, table};
ghost use Rattle.phonon.specs.Sets.{slot};
ghost use Rattle.phonon.specs.Tests.{every_below, all_within};
ghost use Rattle.phonon.specs.ReciprocalToNormal.{dot, strength};
ghost use Rattle.planes.specs.Region.{SameOutside};
ghost use Rattle.planes.specs.Split.{split};
ghost use Rattle.planes.specs.Layout.{constants_in, phonon_in};
ghost use Rattle.reciprocal_to_normal.specs.Places.{number_in};
ghost use Rattle.reciprocal_to_normal.specs.Slots.{Visited, j_of, InColumn, InPlane, InSlots, bands_of, leg1_of, strength_in, slot_in};

use crate::operands::Operands;
use crate::plane::{Column, Plane};
use crate::strength::strength_of;
use planes::{get_split, index_at};

// Whether slot i is flagged.
pub fn is_flagged(flags: &[u8], i: usize) -> bool
    requires { i < length flags.now }
    ensures { result ≡ flagged flags.now i }
{
    flags[i] != 0
}

// Whether the slots of the column are all flagged. A loop, which is as plain: to `all` the closure had to say by clauses that its slots
// lie in the list.
fn all_flagged(flags: &[u8], c: Column) -> bool
    requires { InSlots c (length flags.now) }
    ensures { result ≡ every_below (λ j. flagged flags.now (slot c.bands c.b j c.k)) c.bands }
{
    for j in 0..c.bands {
        if !is_flagged(flags, c.slot(j)) {
            return false;
        }
    }
    true
}

// Whether fewer than half of the slots of the column are not flagged, and there are more than three: then single dot products
// are quicker than all at once. Both ways give the same numbers, so nothing is promised of the answer.
fn mostly_flagged(flags: &[u8], c: Column) -> bool
    requires { InSlots c (length flags.now) }
{
    if c.bands < 6 {
        return false;
    }
    // By a loop, for the reason that all_flagged has.
    let mut count: usize = 0;
    for j in 0..c.bands {
        if !is_flagged(flags, c.slot(j)) {
            count += 1;
        }
    }
    2 * count < c.bands
}

// The slots of the column, from their amplitudes at ao. The strength of a flagged slot, a division, is not worked.
fn fill_column(out: &mut [f64], flags: &[u8], w: &[f64], ao: usize, p: &Plane<'_>, c: Column)
    requires { InSlots c (length out.old)
        × (c.bands ≡ bands_of p.now)
        × (length out.old ≤ length flags.now)
        × (ao + 2 * c.bands ≤ length w.now) }
    ensures { Visited out.old out.new (flagged flags.now)
        (λ n. strength_in p.now (split w.now ao c.bands (j_of c.bands n)) (j_of c.bands n) c.k)
        (length out.old) (InColumn c.bands c.b c.k c.bands) }
{
    // Read once: a store to `out` would have them read again for each slot.
    let x = p.x;
    let z = p.freqs2[c.k];
    let cutoff = p.cutoff;
    let freqs1 = p.freqs1;
    for j in 0..c.bands {
        let place = c.slot(j);
        if !is_flagged(flags, place) {
            out[place] = strength_of(cutoff, get_split(w, ao, c.bands, j), x, freqs1[j], z);
        }
    }
}

// Slot i, of bands j and k, from the row.
fn fill_from_row(
    out: &mut [f64],
    flags: &[u8],
    w: &[f64],
    p: &Plane<'_>,
    j: usize,
    k: usize,
    i: usize,
)
    requires { (j < bands_of p.now)
        × (k < bands_of p.now)
        × (i < length out.old)
        × (i < length flags.now)
        × (p.now.row + 2 * bands_of p.now ≤ length w.now) }
    ensures { Visited out.old out.new (flagged flags.now)
        (λ n. strength_in p.now (dot (bands_of p.now) (split w.now p.now.row (bands_of p.now)) (number_in w.now (leg1_of p.now j))) j k)
        (length out.old) (λ n. n ≡ i) }
{
    if is_flagged(flags, i) {
        return;
    }
    out[i] = p.strength(p.dot(w, j), j, k);
}

// The slots of the column, from the row: one dot product for each that is not flagged.
fn fill_sparse_column(out: &mut [f64], flags: &[u8], w: &[f64], p: &Plane<'_>, c: Column)
    requires { InSlots c (length out.old)
        × (c.bands ≡ bands_of p.now)
        × (length out.old ≤ length flags.now)
        × (p.now.row + 2 * bands_of p.now ≤ length w.now) }
    ensures { Visited out.old out.new (flagged flags.now)
        (λ n. strength_in p.now (dot (bands_of p.now) (split w.now p.now.row (bands_of p.now)) (number_in w.now (leg1_of p.now (j_of c.bands n)))) (j_of c.bands n) c.k)
        (length out.old) (InColumn c.bands c.b c.k c.bands) }
{
    for j in 0..c.bands {
        fill_from_row(out, flags, w, p, j, c.k, c.slot(j));
    }
}

// The slots (b, j, k) of all j. If one is not flagged, writes the row; behind it lies room for the amplitudes.
fn fill_pair(out: &mut [f64], flags: &[u8], w: &mut [f64], p: &Plane<'_>, b: usize, k: usize)
    requires { (k < bands_of p.now)
        × ((b + 1) * bands_of p.now * bands_of p.now ≤ length out.old)
        × (length out.old ≤ length flags.now)
        × (p.now.row + 4 * bands_of p.now ≤ length w.old) }
    ensures { Visited out.old out.new (flagged flags.now) (slot_in w.old p.now) (length out.old) (InColumn (bands_of p.now) b k (bands_of p.now))
        × SameOutside w.old w.new p.now.row (p.now.row + 4 * bands_of p.now) }
{
    let nb = 3 * p.atoms;
    let c = Column { bands: nb, b, k };
    if all_flagged(flags, c) {
        return;
    }
    p.contract_leg2(w, k);
    if mostly_flagged(flags, c) {
        fill_sparse_column(out, flags, w, p, c);
        return;
    }
    p.contract_leg1(w);
    fill_column(out, flags, w, p.row + 2 * nb, p, c);
}

// The slots (b, j, k) of all k and j.
fn fill_plane(out: &mut [f64], flags: &[u8], w: &mut [f64], p: &Plane<'_>, b: usize)
    requires { ((b + 1) * bands_of p.now * bands_of p.now ≤ length out.old)
        × (length out.old ≤ length flags.now)
        × (p.now.row + 4 * bands_of p.now ≤ length w.old) }
    ensures { Visited out.old out.new (flagged flags.now) (slot_in w.old p.now) (length out.old) (InPlane (bands_of p.now) b (bands_of p.now))
        × SameOutside w.old w.new p.now.row (p.now.row + 4 * bands_of p.now) }
{
    for k in 0..3 * p.atoms {
        fill_pair(out, flags, w, p, b, k);
    }
}

// All slots. Behind the matrix lie its row and the amplitudes.
#[tactic(auto, using(phonon::proofs::Accepted::index_below))]
pub fn reciprocal_to_normal_squared(
    out: &mut [f64],
    flags: &[u8],
    w: &mut [f64],
    o: &Operands<'_>,
    bands: &[i64],
)
    requires sizes { (length out.old ≡ length bands.now * (3 * o.now.atoms) * (3 * o.now.atoms))
        × (length flags.now ≡ length bands.now * (3 * o.now.atoms) * (3 * o.now.atoms))
        × (o.now.scratch + 2 * (3 * o.now.atoms * (3 * o.now.atoms)) + 4 * (3 * o.now.atoms) ≤ length w.old) }
    requires entries { all_within (pos 0) (pos (3 * o.now.atoms - 1)) bands.now ≡ true }
    ensures { (out.new ≡ table (length bands.now * (3 * o.now.atoms) * (3 * o.now.atoms))
        (λ n. cond (flagged flags.now n) (at out.old n)
        (strength o.now.atoms (constants_in w.old o.now.constants o.now.atoms)
        (record {
          leg0 = phonon_in w.old o.now.legs.leg0 (3 * o.now.atoms) o.now.freqs.leg0.now
              (index (int bands.now (n / (3 * o.now.atoms) / (3 * o.now.atoms))));
          leg1 = phonon_in w.old o.now.legs.leg1 (3 * o.now.atoms) o.now.freqs.leg1.now (n / (3 * o.now.atoms) % (3 * o.now.atoms));
          leg2 = phonon_in w.old o.now.legs.leg2 (3 * o.now.atoms) o.now.freqs.leg2.now (n % (3 * o.now.atoms));
        }) o.now.cutoff)))
        × SameOutside w.old w.new o.now.scratch (o.now.scratch + 2 * (3 * o.now.atoms * (3 * o.now.atoms)) + 4 * (3 * o.now.atoms)) }
{
    for b in 0..bands.len() {
        let p = o.plane(w, index_at(bands, b));
        fill_plane(out, flags, w, &p, b);
    }
}
