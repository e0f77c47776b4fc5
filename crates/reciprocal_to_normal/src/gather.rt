// What the slots of a symmetrized triplet gather of the full listing of each leg order.
ghost use Rattle.std.specs.Prelude.{◌≡◌, true, cond, ◌+◌, ◌-◌, ◌*◌, ◌/◌, ◌%◌, ◌<◌, ◌≤◌, pos, length};
ghost use Rattle.phonon.specs.Number.{◌⊕◌, ◌⊘◌, f6, at, index, int, flagged, table};
ghost use Rattle.phonon.specs.Tests.{all_within};
ghost use Rattle.reciprocal_to_normal.specs.Slots.{Visited, InColumn, InPlane, InSlots};
ghost use Rattle.reciprocal_to_normal.specs.Listing.{source_place, InOrder, gathered};

use crate::plane::Column;
use crate::slots::is_flagged;
use planes::index_at;

// The full listing of one leg order: where it stands in the work buffer, its bands of a leg, and the order of the legs.
#[derive(Clone, Copy)]
pub struct Listing {
    pub at: usize,
    pub bands: usize,
    pub order: [usize; 3],
    pub ghost few: { bands ≤ 3000 },
    pub ghost in_order: { InOrder order },
}

impl Listing {
    // The number that the slot of bands x, y, z gathers.
    fn source_place(&self, x: usize, y: usize, z: usize) -> usize
        requires { (x < self.now.bands) × (y < self.now.bands) × (z < self.now.bands) }
        ensures { (result ≡ source_place self.now.bands self.now.order x y z)
            × (result < self.now.bands * (self.now.bands * self.now.bands)) }
    {
        let bands: [usize; 3] = [x, y, z];
        let [a, b, c] = self.order;
        (bands[a] * self.bands + bands[b]) * self.bands + bands[c]
    }
}

// Adds a sixth of s to slot i unless it is flagged.
fn gather_slot(out: &mut [f64], flags: &[u8], i: usize, s: f64)
    requires { (i < length out.old) × (i < length flags.now) }
    ensures { Visited out.old out.new (flagged flags.now)
        (λ n. at out.old n ⊕ s ⊘ f6) (length out.old) (λ n. n ≡ i) }
{
    if is_flagged(flags, i) {
        return;
    }
    out[i] = out[i] + s / 6.0;
}

// The slots of the column, whose first band is n.
fn gather_column(out: &mut [f64], flags: &[u8], w: &[f64], l: &Listing, n: usize, c: Column)
    requires { InSlots c (length out.old)
        × (c.bands ≡ l.now.bands)
        × (n < l.now.bands)
        × (length out.old ≤ length flags.now)
        × (l.now.at + l.now.bands * (l.now.bands * l.now.bands) ≤ length w.now) }
    ensures { Visited out.old out.new (flagged flags.now)
        (λ m. gathered w.now l.now.at l.now.bands l.now.order (λ i. n) (at out.old m) m)
        (length out.old) (InColumn l.now.bands c.b c.k l.now.bands) }
{
    for j in 0..l.bands {
        let p = l.source_place(n, j, c.k);
        gather_slot(out, flags, c.slot(j), w[l.at + p]);
    }
}

// The slots (b, j, k) of all k and j, whose first band is n.
fn gather_plane(out: &mut [f64], flags: &[u8], w: &[f64], l: &Listing, n: usize, b: usize)
    requires { (n < l.now.bands)
        × ((b + 1) * l.now.bands * l.now.bands ≤ length out.old)
        × (length out.old ≤ length flags.now)
        × (l.now.at + l.now.bands * (l.now.bands * l.now.bands) ≤ length w.now) }
    ensures { Visited out.old out.new (flagged flags.now)
        (λ m. gathered w.now l.now.at l.now.bands l.now.order (λ i. n) (at out.old m) m)
        (length out.old) (InPlane l.now.bands b l.now.bands) }
{
    let bands = l.bands;
    for k in 0..bands {
        gather_column(out, flags, w, l, n, Column { bands, b, k });
    }
}

// Adds to each slot that is not flagged a sixth of its number of the full listing.
pub fn gather_sixth(out: &mut [f64], flags: &[u8], w: &[f64], l: &Listing, bands: &[i64])
    requires sizes { (1 ≤ l.now.bands)
        × (length out.old ≡ length bands.now * l.now.bands * l.now.bands)
        × (length flags.now ≡ length bands.now * l.now.bands * l.now.bands)
        × (l.now.at + l.now.bands * (l.now.bands * l.now.bands) ≤ length w.now) }
    requires entries { all_within (pos 0) (pos (l.now.bands - 1)) bands.now ≡ true }
    ensures { out.new ≡ table (length bands.now * l.now.bands * l.now.bands)
        (λ n. cond (flagged flags.now n) (at out.old n)
        (at out.old n ⊕ at w.now
        (l.now.at + source_place l.now.bands l.now.order (index (int bands.now (n / l.now.bands / l.now.bands)))
        (n / l.now.bands % l.now.bands) (n % l.now.bands)) ⊘ f6)) }
{
    for b in 0..bands.len() {
        gather_plane(out, flags, w, l, index_at(bands, b), b);
    }
}
