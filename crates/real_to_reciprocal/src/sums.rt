// The 27 numbers of three atoms, real parts first: planes as those of the work buffer, so that the same words and laws speak of both.
ghost use Rattle.std.specs.Prelude.{◌≡◌, ℕ, ◌<◌};
ghost use Rattle.planes.specs.Split.{split, WroteSplit};

use phonon::Complex;
use planes::{get_split, put_split};

// Changes each number by f, which is handed its place and the number. Laid into its callers, so that no turn loads anew what f
// holds.
#[inline(always)]
pub fn change_each<F: Fn(usize, Complex) -> Complex>(t: &mut [f64; 54], f: F)
    requires { (e : ℕ) (z : Complex) → e < 27 → F.pre f e z }
    ensures { (h : ℕ → Complex → Complex) → ((e : ℕ) (z r : Complex) → e < 27 → F.post f e z r → r ≡ h e z)
        → WroteSplit t.old t.new 0 27 27 (λ e. h e (split t.old 0 27 e)) }
{
    for e in 0..27 {
        let z = f(e, get_split(t, 0, 27, e));
        put_split(t, 0, 27, e, z);
    }
}
