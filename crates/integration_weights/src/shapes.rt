// The value of a shape at a distance.
ghost use Rattle.std.specs.Prelude.{◌≡◌, cond, [], ◌∷◌};
ghost use Rattle.std.specs.Float.Ieee.{lt};
ghost use Rattle.phonon.specs.Number.{◌⊗◌, ◌⊘◌, f0, f1, f2};
ghost use Rattle.integration_weights.specs.declared.Shape.{Shape};
ghost use Rattle.integration_weights.specs.declared.Shape.TheVariants.{Gaussian};
ghost use Rattle.integration_weights.specs.Shapes as Shapes;

use crate::Shape;

// 3FD45F306DC9C883, the f64 nearest 1/π
const INVERSE_PI: f64 = 0.3183098861837907;

// 3FD9884533D43651, the f64 nearest 1/√(2π)
const GAUSSIAN_SCALE: f64 = 0.3989422804014327;

#[tactic(auto, unfolding(crate::specs::Shapes::width_of))]
pub fn width_of(s: Shape) -> f64
    ensures { result ≡ Shapes.width_of s }
{
    match s {
        Shape::Gaussian(w) | Shape::Lorentzian(w) | Shape::Box(w) => w,
    }
}

// The definition's, which leaves a zero's sign: f64::abs clears it besides, which plays no part here.
#[tactic(auto, unfolding(crate::specs::Shapes::magnitude))]
fn magnitude(d: f64) -> f64
    ensures { result ≡ Shapes.magnitude d }
{
    if d < 0.0 {
        return -d;
    }
    d
}

#[tactic(auto, unfolding(crate::specs::Shapes::box_at))]
fn box_at(w: f64, d: f64) -> f64
    ensures { result ≡ Shapes.box_at w d }
{
    if magnitude(d) <= w {
        return 1.0 / (2.0 * w);
    }
    0.0
}

#[tactic(auto, unfolding(crate::specs::Shapes::lorentzian_at))]
fn lorentzian_at(w: f64, d: f64) -> f64
    ensures { result ≡ Shapes.lorentzian_at w d }
{
    w / (d * d + w * w) * INVERSE_PI
}

// ---- what a row asks of a shape

// The values at one distance, and at two, of the shape that it stands for. A method of any count would keep arrays of tests and of
// arguments where these name them.
pub trait Broadening: Copy {
    ghost shape: { Self → Shape };

    fn at(self, d: f64) -> f64
        ensures { result ≡ Shapes.shape_at (shape self) d };

    fn two(self, d: f64, e: f64) -> [f64; 2]
        ensures { result ≡ Shapes.shape_at (shape self) d ∷ Shapes.shape_at (shape self) e ∷ [] };
}

// A Gaussian of a width: at two distances the exponentials are worked side by side.
#[derive(Clone, Copy)]
pub struct Bell {
    pub width: f64,
}

// Whether the distance d lies beyond 8 widths.
fn is_cut(w: f64, d: f64) -> bool
    ensures { result ≡ lt (Shapes.f8 ⊗ w) (Shapes.magnitude d) }
{
    magnitude(d) > 8.0 * w
}

// The exponential's argument at t. Where the distance is cut it is 0.0, in the domain of the exponentials that are worked side by side. The
// test stands beside it, and no Option: it picks the value as well, and where one of two distances is cut both exponentials are worked.
fn argument(cut: bool, t: f64) -> f64
    ensures { result ≡ cond cut f0 (t ⊗ t ⊘ f2) }
{
    if cut {
        return 0.0;
    }
    t * t / 2.0
}

// The value, from that exponential e.
fn value(cut: bool, e: f64, scale: f64) -> f64
    ensures { result ≡ cond cut f0 (f1 ⊘ e ⊗ scale) }
{
    if cut {
        return 0.0;
    }
    1.0 / e * scale
}

impl Broadening for Bell {
    ghost shape = { λ b. Gaussian b.width };

    fn at(self, d: f64) -> f64 {
        let w = self.width;
        if is_cut(w, d) {
            return 0.0;
        }
        let t = d / w;
        1.0 / funcs::exp(t * t / 2.0) * (GAUSSIAN_SCALE / w)
    }

    // If both distances are cut, as most are of a narrow Gaussian, no exponential is worked.
    fn two(self, d: f64, e: f64) -> [f64; 2] {
        let w = self.width;
        let a = is_cut(w, d);
        let b = is_cut(w, e);
        if a & b {
            return [0.0, 0.0];
        }
        let x = funcs::exps([argument(a, d / w), argument(b, e / w)]);
        let scale = GAUSSIAN_SCALE / w;
        [value(a, x[0], scale), value(b, x[1], scale)]
    }
}

impl Broadening for Shape {
    ghost shape = { λ s. s };

    #[tactic(auto, unfolding(crate::specs::Shapes::shape_at))]
    fn at(self, d: f64) -> f64 {
        match self {
            Shape::Gaussian(width) => Bell { width }.at(d),
            Shape::Lorentzian(w) => lorentzian_at(w, d),
            Shape::Box(w) => box_at(w, d),
        }
    }

    // Of a Lorentzian and a box they are worked as a vector.
    fn two(self, d: f64, e: f64) -> [f64; 2] {
        [self.at(d), self.at(e)]
    }
}
