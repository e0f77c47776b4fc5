// The lengths of the slices, which the measures fix.
ghost use Rattle.std.specs.Prelude.{◌≡◌};
ghost use Rattle.phonon.specs.Limits.{rows_of, sizes_of};
ghost use Rattle.checks.specs.Small.{Small};

use phonon::{Form, Measures, Sizes};

// The rows of the force constants.
#[tactic(auto, unfolding(phonon::specs::Limits::rows_of))]
fn rows_of(m: Measures, form: Form) -> usize
    ensures { result ≡ rows_of form m }
{
    match form {
        Form::Compact => m.atoms,
        Form::Full => m.supercell,
    }
}

#[tactic(auto, using(crate::proofs::SizeLaws::products))]
pub fn sizes_of(m: Measures, form: Form) -> Sizes
    requires { Small 65536 m }
    ensures { result ≡ sizes_of m form }
{
    let rows = rows_of(m, form);
    let p = m.atoms;
    let s = m.supercell;
    let f = m.first;
    let g = m.grid;
    let v = m.vectors;
    let work = planes::work_length(p, s);
    let bands = 3 * p;
    let frequencies = g * bands;
    let pairs = rows * s * s;
    Sizes {
        addresses: 3 * g,
        vectors: 3 * v,
        multiplicity: 2 * (s * p),
        frequencies: frequencies,
        eigenvectors: 2 * (frequencies * bands),
        shortest: p * s * s,
        nonzero: pairs,
        slots: f * bands * bands,
        constants: pairs * 27,
        work: work,
    }
}
