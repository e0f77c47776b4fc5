// q vectors, and the phase factors and pre-factors that they give.
ghost use Rattle.std.specs.Prelude.{◌≡◌, ◌+◌, ◌*◌, ◌<◌, ◌≤◌, pos, length};
ghost use Rattle.phonon.specs.Number.{◌⊕◌, ◌⊗◌, float, index, int};
ghost use Rattle.phonon.specs.Common.{cadd};
ghost use Rattle.phonon.specs.Handed.{grid_of};
ghost use Rattle.phonon.specs.Interaction.{leg};
ghost use Rattle.phonon.specs.RealToReciprocal as Def;
ghost use Rattle.planes.specs.Split.{WroteSplit};
ghost use Rattle.real_to_reciprocal.specs.Three.{array_at, WroteThree};
ghost use Rattle.real_to_reciprocal.specs.Shape.{Anchored, Ranged};

use common::{cmplx_add, cmplx_scale, float_of};
use funcs::{sin_cos, sin_cos_three};
use phonon::{Complex, Crystal, Grid, Legs};
use planes::{index_at, put_split};

// 400921FB54442D18
const PI: f64 = 3.141592653589793;

// Component c of grid point g's address, over the mesh.
#[tactic(auto, unfolding(phonon::specs::RealToReciprocal::address_over))]
fn address_over(grid: &Grid<'_>, g: usize, c: usize) -> f64
    requires { (c < 3) × (3 * g + 3 ≤ length grid.now.addresses.now) }
    ensures { result ≡ Def.address_over (grid_of grid.now) g c }
{
    float_of(grid.addresses[3 * g + c]) / float_of(grid.mesh[c])
}

// Component k of a q: a row of the q matrix times x, y, z.
fn q_entry(grid: &Grid<'_>, k: usize, x: f64, y: f64, z: f64) -> f64
    requires { k < 3 }
    ensures { result ≡ float (int grid.now.matrix (3 * k)) ⊗ x ⊕ float (int grid.now.matrix (3 * k + 1)) ⊗ y ⊕ float (int grid.now.matrix (3 * k + 2)) ⊗ z }
{
    float_of(grid.matrix[3 * k]) * x
        + float_of(grid.matrix[3 * k + 1]) * y
        + float_of(grid.matrix[3 * k + 2]) * z
}

// The q of grid point g: the q matrix times the address over the mesh.
#[tactic(auto, unfolding(phonon::specs::RealToReciprocal::q_at, phonon::specs::RealToReciprocal::q_entry, phonon::specs::Number::table, phonon::specs::Number::table_from))]
pub fn compute_q_vec(grid: &Grid<'_>, g: usize) -> [f64; 3]
    requires { 3 * g + 3 ≤ length grid.now.addresses.now }
    ensures { result ≡ Def.q_at (grid_of grid.now) g }
{
    let x = address_over(grid, g, 0);
    let y = address_over(grid, g, 1);
    let z = address_over(grid, g, 2);
    [
        q_entry(grid, 0, x, y, z),
        q_entry(grid, 1, x, y, z),
        q_entry(grid, 2, x, y, z),
    ]
}

// The phase of vector v.
#[tactic(auto, unfolding(phonon::specs::RealToReciprocal::phase))]
pub fn phase(q: &[f64; 3], vectors: &[f64], v: usize) -> f64
    requires { 3 * v + 3 ≤ length vectors.now }
    ensures { result ≡ Def.phase q.now vectors.now v }
{
    (q[0] * vectors[3 * v] + q[1] * vectors[3 * v + 1] + q[2] * vectors[3 * v + 2]) * 2.0 * PI
}

// The cosine and the sine of x.
#[tactic(auto, unfolding(phonon::specs::RealToReciprocal::cis))]
fn cis(x: f64) -> Complex
    ensures { result ≡ Def.cis x }
{
    Complex::from(sin_cos(x))
}

// The sums of the three legs with the factors of one vector more, whose phases at the three q are x. Worked at once they
// do not wait for one another.
#[tactic(auto, unfolding(phonon::specs::RealToReciprocal::cis))]
fn add_factors(sum: Legs<Complex>, x: Legs<f64>) -> Legs<Complex>
    ensures { (result.leg0 ≡ cadd sum.leg0 (Def.cis x.leg0))
        × (result.leg1 ≡ cadd sum.leg1 (Def.cis x.leg1))
        × (result.leg2 ≡ cadd sum.leg2 (Def.cis x.leg2)) }
{
    let t = sin_cos_three(x);
    Legs {
        leg0: cmplx_add(sum.leg0, Complex::from(t.leg0)),
        leg1: cmplx_add(sum.leg1, Complex::from(t.leg1)),
        leg2: cmplx_add(sum.leg2, Complex::from(t.leg2)),
    }
}

// The means of the phase factors of `count` vectors, from vector `start` on, at the three q.
fn get_phase_factors(
    q: &Legs<[f64; 3]>,
    vectors: &[f64],
    count: usize,
    start: usize,
) -> Legs<Complex>
    requires { 3 * (start + count) ≤ length vectors.now }
    ensures { (result.leg0 ≡ Def.phase_factor q.now.leg0 vectors.now (pos count) (pos start))
        × (result.leg1 ≡ Def.phase_factor q.now.leg1 vectors.now (pos count) (pos start))
        × (result.leg2 ≡ Def.phase_factor q.now.leg2 vectors.now (pos count) (pos start)) }
{
    let zero = Complex { re: 0.0, im: 0.0 };
    let mut sum = Legs {
        leg0: zero,
        leg1: zero,
        leg2: zero,
    };
    for v in start..start + count {
        // Leg by leg: to `map` the closure had to say by a clause that vector v is there.
        let x = Legs {
            leg0: phase(&q.leg0, vectors, v),
            leg1: phase(&q.leg1, vectors, v),
            leg2: phase(&q.leg2, vectors, v),
        };
        sum = add_factors(sum, x);
    }
    let s = 1.0 / float_of(count);
    sum.map(|z| cmplx_scale(z, s))
}

// The phase factors of atom i and each supercell atom, at the three q: numbers i * ns to i * ns + ns of three arrays, one behind
// the other from fo on, of np * ns numbers each.
fn phase_factor_row(
    w: &mut [f64],
    fo: usize,
    q: &Legs<[f64; 3]>,
    crystal: &Crystal<'_>,
    np: usize,
    ns: usize,
    i: usize,
)
    requires { (i < np)
        × (array_at fo (np * ns) 3 ≤ length w.old)
        × Ranged crystal.now.vectors.now crystal.now.multiplicity.now (ns * np) }
    ensures { WroteThree w.old w.new fo (np * ns) (i * ns) (i * ns + ns)
        (λ x. Def.phase_factor_entry np ns crystal.now.vectors.now crystal.now.multiplicity.now (leg q.now x)) }
{
    let vectors = crystal.vectors;
    let multiplicity = crystal.multiplicity;
    let d = np * ns;
    let f1 = fo + 2 * d;
    let f2 = f1 + 2 * d;
    for j in 0..ns {
        let n = 2 * (j * np + i);
        let count = index_at(multiplicity, n);
        let start = index_at(multiplicity, n + 1);
        let z = get_phase_factors(q, vectors, count, start);
        let k = i * ns + j;
        put_split(w, fo, d, k, z.leg0);
        put_split(w, f1, d, k, z.leg1);
        put_split(w, f2, d, k, z.leg2);
    }
}

// The phase factors of the three legs, whose q are given: of each np * ns numbers in planes, one array behind the other from
// fo on.
pub fn phase_factors(
    w: &mut [f64],
    fo: usize,
    q: &Legs<[f64; 3]>,
    crystal: &Crystal<'_>,
    np: usize,
    ns: usize,
)
    requires { (array_at fo (np * ns) 3 ≤ length w.old)
        × Ranged crystal.now.vectors.now crystal.now.multiplicity.now (ns * np) }
    ensures { WroteThree w.old w.new fo (np * ns) 0 (np * ns)
        (λ x. Def.phase_factor_entry np ns crystal.now.vectors.now crystal.now.multiplicity.now (leg q.now x)) }
{
    for i in 0..np {
        phase_factor_row(w, fo, q, crystal, np, ns, i);
    }
}

// The phase of vector v at the sum of the three q.
pub fn pre_phase(vectors: &[f64], q: &Legs<[f64; 3]>, v: usize) -> f64
    requires { 3 * v + 3 ≤ length vectors.now }
    ensures { result ≡ Def.pre_phase vectors.now q.now v }
{
    // By places: four arrays are read, and their zip reads no plainer.
    let mut sum = 0.0;
    for j in 0..3 {
        sum = sum + vectors[3 * v + j] * (q.leg0[j] + q.leg1[j] + q.leg2[j]);
    }
    sum * (2.0 * PI)
}

// The first vector of entry p2s[i] * np of the multiplicities, at which the pre-phase of atom i is taken.
pub fn anchor_vector(crystal: &Crystal<'_>, np: usize, i: usize) -> usize
    requires { (i < length crystal.now.forces.p2s.now)
        × (2 * (index (int crystal.now.forces.p2s.now i) * np) + 2 ≤ length crystal.now.multiplicity.now) }
    ensures { result ≡ Def.anchor_vector np crystal.now.multiplicity.now crystal.now.forces.p2s.now i }
{
    let n = 2 * (index_at(crystal.forces.p2s, i) * np) + 1;
    index_at(crystal.multiplicity, n)
}

// The pre-factor of atom i.
fn get_pre_phase_factor(i: usize, q: &Legs<[f64; 3]>, crystal: &Crystal<'_>, np: usize) -> Complex
    requires { (i < length crystal.now.forces.p2s.now)
        × (2 * (index (int crystal.now.forces.p2s.now i) * np) + 2 ≤ length crystal.now.multiplicity.now)
        × (3 * Def.anchor_vector np crystal.now.multiplicity.now crystal.now.forces.p2s.now i + 3
        ≤ length crystal.now.vectors.now) }
    ensures { result ≡ Def.pre_factor_entry np crystal.now.vectors.now
        crystal.now.multiplicity.now crystal.now.forces.p2s.now q.now i }
{
    cis(pre_phase(crystal.vectors, q, anchor_vector(crystal, np, i)))
}

// The pre-factors: np numbers in planes from `off` on.
pub fn pre_phase_factors(
    w: &mut [f64],
    off: usize,
    q: &Legs<[f64; 3]>,
    crystal: &Crystal<'_>,
    np: usize,
)
    requires { (off + 2 * np ≤ length w.old)
        × Anchored crystal.now.vectors.now crystal.now.multiplicity.now crystal.now.forces.p2s.now np }
    ensures { WroteSplit w.old w.new off np np
        (Def.pre_factor_entry np crystal.now.vectors.now
        crystal.now.multiplicity.now crystal.now.forces.p2s.now q.now) }
{
    for i in 0..np {
        put_split(w, off, np, i, get_pre_phase_factor(i, q, crystal, np));
    }
}
