// The types that the definitions in specs/ and the contracts of every other crate speak of.
#![tactic(auto)]

ghost use Rattle.std.specs.Prelude.{◌≡◌};
ghost use Rattle.phonon.specs.Answers.{number_of};

// A complex number, which the source holds as [f64; 2].
#[derive(Clone, Copy)]
pub struct Complex {
    pub re: f64,
    pub im: f64,
}

// The sine and the cosine of one argument, as f64::sin_cos gives them.
#[derive(Clone, Copy)]
pub struct SinCos {
    pub sin: f64,
    pub cos: f64,
}

// The cosine is the real part, the sine the imaginary.
impl From<SinCos> for Complex {
    ghost use Rattle.std.specs.Prelude.{◌≡◌};
    ghost use Rattle.phonon.specs.RealToReciprocal.{as_complex};

    ghost from_gives = { λ p z. z ≡ as_complex p };

    fn from(p: SinCos) -> Complex {
        Complex {
            re: p.cos,
            im: p.sin,
        }
    }
}

// One thing for each of a triplet's three legs.
#[derive(Clone, Copy)]
pub struct Legs<T> {
    pub leg0: T,
    pub leg1: T,
    pub leg2: T,
}

impl<T: Copy> Legs<T> {
    ghost use Rattle.std.specs.Prelude.{◌≡◌, get_or};
    ghost use Rattle.phonon.specs.Interaction as Interaction;

    // That of leg x.
    pub fn leg(&self, x: usize) -> T
        ensures { result ≡ Interaction.leg self.now x }
    {
        match x {
            0 => self.leg0,
            1 => self.leg1,
            _ => self.leg2,
        }
    }

    // The legs in this order.
    pub fn picked(&self, order: [usize; 3]) -> Legs<T>
        ensures { result ≡ Interaction.picked self.now (get_or order 0 0) (get_or order 1 0) (get_or order 2 0) }
    {
        Legs {
            leg0: self.leg(order[0]),
            leg1: self.leg(order[1]),
            leg2: self.leg(order[2]),
        }
    }

    // f of each leg.
    pub fn map<U, F: Fn(T) -> U>(&self, f: F) -> Legs<U>
        requires { F.pre f self.now.leg0 × F.pre f self.now.leg1 × F.pre f self.now.leg2 }
        ensures { F.post f self.now.leg0 result.leg0 × F.post f self.now.leg1 result.leg1 × F.post f self.now.leg2 result.leg2 }
    {
        Legs {
            leg0: f(self.leg0),
            leg1: f(self.leg1),
            leg2: f(self.leg2),
        }
    }
}

// The source's make_r0_average: the force constants of three atoms are anchored at the first of them, or
// at each in turn and averaged.
#[derive(Clone, Copy)]
pub enum Anchoring {
    Plain,
    Averaged,
}

// The source's leg_index: a sum over supercell pairs stands alone, or is one of the three of the average.
#[derive(Clone, Copy)]
pub enum Leg {
    Alone,
    First,
    Second,
    Third,
}

// Document 01's settings.
#[derive(Clone, Copy)]
pub struct Settings {
    pub anchoring: Anchoring,
    pub cutoff: f64,
}

// The source's is_compact_fc3: the force constants have a row for each atom of the primitive cell, or for
// each atom of the supercell.
#[derive(Clone, Copy)]
pub enum Form {
    Compact,
    Full,
}

// The source's symmetrize_fc3_q: the legs are taken in their own order, or in each of six orders.
#[derive(Clone, Copy)]
pub enum Symmetry {
    Off,
    Symmetrized,
}

// Document 01's measures P, S, F, G and the number of vectors.
#[derive(Clone, Copy)]
pub struct Measures {
    pub atoms: usize,
    pub supercell: usize,
    pub first: usize,
    pub grid: usize,
    pub vectors: usize,
}

// The measures of totals alone: P, F and G.
#[derive(Clone, Copy)]
pub struct TotalsMeasures {
    pub atoms: usize,
    pub first: usize,
    pub grid: usize,
}

// As measures: a supercell and vectors are not handed in, and both stand at 1.
impl From<TotalsMeasures> for Measures {
    ghost use Rattle.std.specs.Prelude.{◌≡◌};
    ghost use Rattle.phonon.specs.Sets.{measures_of};

    ghost from_gives = { λ m all. all ≡ measures_of m };

    fn from(m: TotalsMeasures) -> Measures {
        Measures {
            atoms: m.atoms,
            supercell: 1,
            first: m.first,
            grid: m.grid,
            vectors: 1,
        }
    }
}

// The length of each slice that the measures fix, and the part of the work buffer that is used.
#[derive(Clone, Copy)]
pub struct Sizes {
    pub addresses: usize,
    pub vectors: usize,
    pub multiplicity: usize,
    pub frequencies: usize,
    pub eigenvectors: usize,
    pub shortest: usize,
    pub nonzero: usize,
    pub slots: usize,
    pub constants: usize,
    pub work: usize,
}

// Document 01's bath: the triplet's weight, and the temperature in units of frequency.
#[derive(Clone, Copy)]
pub struct Bath {
    pub weight: i64,
    pub temperature: f64,
}

// The source's at_a_frequency_point: flags and weights have an entry for each slot, or an entry for each
// pair of later bands that all first bands share.
#[derive(Clone, Copy)]
pub enum Weights {
    PerSlot,
    AtFrequencyPoint,
}

// Document 01's band of a leg: its frequency and its occupation together.
#[derive(Clone, Copy)]
pub struct Band {
    pub frequency: f64,
    pub occupation: f64,
}

// ---- what a door is handed: specs/Handed.antt reads each as its record

// The force constants, with a row for each atom of the primitive cell or of the supercell.
#[derive(Clone, Copy)]
pub struct Forces<'a> {
    pub form: Form,
    pub p2s: &'a [i64],
    pub s2p: &'a [i64],
    pub shortest: &'a [u8],
    pub nonzero: &'a [u8],
    pub constants: &'a [f64],
}

// The rest of what is known of the atoms.
#[derive(Clone, Copy)]
pub struct Crystal<'a> {
    pub vectors: &'a [f64],
    pub multiplicity: &'a [i64],
    pub masses: &'a [f64],
    pub forces: Forces<'a>,
}

// The mesh, the q matrix by rows, and the grid points' addresses.
#[derive(Clone, Copy)]
pub struct Grid<'a> {
    pub mesh: [i64; 3],
    pub matrix: [i64; 9],
    pub addresses: &'a [i64],
}

#[derive(Clone, Copy)]
pub struct Phonons<'a> {
    pub frequencies: &'a [f64],
    pub eigenvectors: &'a [f64],
}

// What every door of the strengths is handed beside its triplets, their flags and the lent buffers.
#[derive(Clone, Copy)]
pub struct Tables<'a> {
    pub measures: Measures,
    pub settings: Settings,
    pub symmetry: Symmetry,
    pub crystal: Crystal<'a>,
    pub grid: Grid<'a>,
    pub bands: &'a [i64],
    pub phonons: Phonons<'a>,
}

// Both integration weights of each slot, or of each pair of later bands.
#[derive(Clone, Copy)]
pub struct IntegrationWeights<'a> {
    pub first: &'a [f64],
    pub second: &'a [f64],
}

// ---- what it answers: the set was worked through, or why it was turned away

// Document 01's causes, by their numbers.
#[derive(Clone, Copy, Debug, PartialEq, Eq, PartialOrd, Ord)]
pub enum Refusal {
    Measure = 1,
    Length = 2,
    Index = 3,
    NotFinite = 4,
    Mesh = 5,
    Mass = 6,
    Cutoff = 7,
    Bath = 8,
    Phase = 9,
    File = 10,
    Block = 11,
    Heading = 12,
    Width = 13,
}

impl From<Refusal> for u8 {
    ghost use Rattle.std.specs.Prelude.{◌≡◌};
    ghost use Rattle.phonon.specs.Answers.{number};

    ghost from_gives = { λ r n. n ≡ number r };

    fn from(r: Refusal) -> u8 {
        r as u8
    }
}

// An answer as one number: 0 where the set is worked through.
pub fn number_of(answer: Result<(), Refusal>) -> u8
    ensures { result ≡ number_of answer }
{
    match answer {
        Ok(()) => 0,
        Err(r) => u8::from(r),
    }
}
