// scale_and_transpose, not transposed: the eigenvectors of one leg, scaled by the masses.
ghost use Rattle.std.specs.Prelude.{◌≡◌, ℕ, ◌+◌, ◌*◌, ◌<◌, ◌≤◌, length, take, drop};
ghost use Rattle.phonon.specs.Common.{scale, cat};
ghost use Rattle.phonon.specs.ReciprocalToNormal.{inverse_root, column};
ghost use Rattle.planes.specs.Split.{WroteSplit};
ghost use Rattle.planes.specs.Region.{Wrote, SameOutside};
ghost use Rattle.planes.specs.Layout.{column_in};

use common::{cmplx_scale, root};
use phonon::Complex;
use planes::put_split;

// From io on, the rounded 1.0 over the root of each atom's mass.
pub fn inverse_roots(w: &mut [f64], io: usize, masses: &[f64], np: usize)
    requires { (io + np ≤ length w.old) × (np ≤ length masses.now) }
    ensures { Wrote w.old w.new io np (inverse_root masses.now) }
{
    for a in 0..np {
        w[io + a] = 1.0 / root(masses[a]);
    }
}

// The numbers of x from number `from` on, times s: `count` numbers at off.
fn scale_run(w: &mut [f64], off: usize, d: usize, x: &[f64], from: usize, count: usize, s: f64)
    requires { (count ≤ d) × (off + d + count ≤ length w.old) × (2 * (from + count) ≤ length x.now) }
    ensures { WroteSplit w.old w.new off d count (λ t. scale (cat x.now (from + t)) s) }
{
    for t in 0..count {
        let i = 2 * (from + t);
        let z = Complex {
            re: x[i],
            im: x[i + 1],
        };
        put_split(w, off, d, t, cmplx_scale(z, s));
    }
}

// From eo on, the eigenvectors at grid point g, each component times the number at io of its atom.
pub fn scale_eigenvectors(
    w: &mut [f64],
    eo: usize,
    io: usize,
    eigenvectors: &[f64],
    np: usize,
    g: usize,
)
    requires { (np ≤ 1000)
        × (io + np ≤ eo)
        × (eo + 2 * (3 * np * (3 * np)) ≤ length w.old)
        × (2 * ((g + 1) * (3 * np * (3 * np))) ≤ length eigenvectors.now) }
    ensures { ((n : ℕ) → n < 3 * np
        → column_in w.new eo (3 * np) n ≡ column (3 * np) eigenvectors.now
        (take np (drop io w.old)) g n)
        × SameOutside w.old w.new eo (eo + 2 * (3 * np * (3 * np))) }
{
    let nb = 3 * np;
    let d = nb * nb;
    let run = 3 * nb;
    for a in 0..np {
        let s = w[io + a];
        scale_run(w, eo + a * run, d, eigenvectors, g * d + a * run, run, s);
    }
}
