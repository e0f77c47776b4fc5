// Where arrays in planes stand in the work buffer.
ghost use Rattle.std.specs.Prelude.{◌≡◌, ◌+◌, ◌*◌, ◌<◌, length};
ghost use Rattle.reciprocal_to_normal.specs.Places.{number_in};

use phonon::Complex;
use planes::get_split;

// The planes of a matrix, or of other numbers that stand side by side.
#[derive(Clone, Copy)]
pub struct Planes {
    pub at: usize,
    pub apart: usize,
}

// A vector in planes, its numbers `step` places apart.
#[derive(Clone, Copy)]
pub struct Vector {
    pub at: usize,
    pub apart: usize,
    pub step: usize,
}

impl Vector {
    // Number k.
    pub fn get(self, w: &[f64], k: usize) -> Complex
        requires { self.at + self.apart + k * self.step < length w.now }
        ensures { result ≡ number_in w.now self k }
    {
        get_split(w, self.at, self.apart, k * self.step)
    }
}
