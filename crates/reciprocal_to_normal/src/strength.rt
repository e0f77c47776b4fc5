// One strength, from its amplitude.
ghost use Rattle.std.specs.Prelude.{◌≡◌};
ghost use Rattle.phonon.specs.ReciprocalToNormal.{strength_from};

use phonon::Complex;

// The strength of amplitude a and the frequencies x, y, z of the three legs, one by one as the definition has them.
pub fn strength_of(cutoff: f64, a: Complex, x: f64, y: f64, z: f64) -> f64
    ensures { result ≡ strength_from cutoff a x y z }
{
    if x <= cutoff {
        return 0.0;
    }
    if y <= cutoff {
        return 0.0;
    }
    if z <= cutoff {
        return 0.0;
    }
    (a.re * a.re + a.im * a.im) / (x * y * z)
}
