// The doors for programs in C and Rust: choices as numbers, arrays of fixed length by reference, one number as the answer.
#![tactic(auto)]

ghost use Rattle.std.specs.Prelude.{◌≡◌, cond, Some, None, slice_get};
ghost use Rattle.wirambolo_c.specs.Foreign as Foreign;
ghost use Rattle.wirambolo_c.specs.Foreign.{Strengths, Totals, Joined, WeightsAnswer};

use integration_weights::Shape;
use phonon::{
    Anchoring, Bath, Crystal, Forces, Form, Grid, IntegrationWeights, Measures, Phonons, Settings,
    Symmetry, Tables, TotalsMeasures, Weights, number_of,
};

// ---- choices

// The answer to a call with a choice that is not known: C's answers are bytes, and this one is no refusal's number.
const UNKNOWN: u8 = 255;

// The choice of a number, as C hands it over: that place of a list of them. No TryFrom: it would stand in the crates of the enums, which do not know
// C's numbers.
fn choice<T: Copy, const N: usize>(number: u8, of: [T; N]) -> Option<T>
    ensures { result ≡ slice_get of number }
{
    of.get(usize::from(number)).copied()
}

fn weights_of(x: u8) -> Option<Weights>
    ensures { result ≡ cond (Foreign.known x) (Some (Foreign.weights_of x)) None }
{
    choice(x, [Weights::PerSlot, Weights::AtFrequencyPoint])
}

// A shape, with its width.
fn shape_of(x: u8, width: f64) -> Option<Shape>
    ensures { result ≡ cond (Foreign.shape_known x) (Some (Foreign.shape_of x width)) None }
{
    choice(
        x,
        [
            Shape::Gaussian(width),
            Shape::Lorentzian(width),
            Shape::Box(width),
        ],
    )
}

// The three choices of the tables.
#[derive(Clone, Copy)]
struct Choices {
    anchoring: Anchoring,
    form: Form,
    symmetry: Symmetry,
}

fn choices_of(anchoring: u8, form: u8, symmetry: u8) -> Option<Choices>
    ensures { result ≡ cond (Foreign.choices_known anchoring form symmetry)
        (Some (record {
          anchoring = Foreign.anchoring_of anchoring;
          form = Foreign.form_of form;
          symmetry = Foreign.symmetry_of symmetry;
        })) None }
{
    Some(Choices {
        anchoring: choice(anchoring, [Anchoring::Plain, Anchoring::Averaged])?,
        form: choice(form, [Form::Compact, Form::Full])?,
        symmetry: choice(symmetry, [Symmetry::Off, Symmetry::Symmetrized])?,
    })
}

// ---- the doors: C hands over each slice by itself, so that each door and its contract name where it belongs. Three doors make the same tables:
// one function of their 23 parameters would be handed them by position, where here each stands beside its field's name. So does each part of a bath
// and of integration weights, which two doors make.

// One triplet.
#[unsafe(no_mangle)]
pub extern "C" fn wirambolo_get_interaction_at_triplet(
    atoms: usize,
    supercell: usize,
    first: usize,
    grid: usize,
    vectors_count: usize,
    anchoring: u8,
    cutoff: f64,
    form: u8,
    symmetry: u8,
    mesh: &[i64; 3],
    matrix: &[i64; 9],
    triplet: &[i64; 3],
    addresses: &[i64],
    vectors: &[f64],
    multiplicity: &[i64],
    p2s: &[i64],
    s2p: &[i64],
    masses: &[f64],
    bands: &[i64],
    frequencies: &[f64],
    eigenvectors: &[f64],
    shortest: &[u8],
    nonzero: &[u8],
    constants: &[f64],
    flags: &[u8],
    strengths: &mut [f64],
    work: &mut [f64],
) -> u8
    ensures { ◌≡◌ {A = Strengths} (record { answer = result; strengths = strengths.new; work = work.new })
        (Foreign.triplet_answer (Foreign.choices_known anchoring form symmetry) (record {
          tables = record {
            measures = record { atoms = atoms; supercell = supercell; first = first; grid = grid; vectors = vectors_count };
            settings = record { anchoring = Foreign.anchoring_of anchoring; cutoff = cutoff };
            symmetry = Foreign.symmetry_of symmetry;
            crystal = record {
              vectors = vectors.now;
              multiplicity = multiplicity.now;
              masses = masses.now;
              forces = record {
                form = Foreign.form_of form;
                p2s = p2s.now;
                s2p = s2p.now;
                shortest = shortest.now;
                nonzero = nonzero.now;
                constants = constants.now;
              };
            };
            grid = record { mesh = mesh.now; matrix = matrix.now; addresses = addresses.now };
            bands = bands.now;
            phonons = record { frequencies = frequencies.now; eigenvectors = eigenvectors.now };
          };
          triplet = triplet.now;
          flags = flags.now;
          strengths = strengths.old;
          work = work.old;
        })) }
{
    let Some(choices) = choices_of(anchoring, form, symmetry) else {
        return UNKNOWN;
    };
    let tables = Tables {
        measures: Measures {
            atoms,
            supercell,
            first,
            grid,
            vectors: vectors_count,
        },
        settings: Settings {
            anchoring: choices.anchoring,
            cutoff,
        },
        symmetry: choices.symmetry,
        crystal: Crystal {
            vectors,
            multiplicity,
            masses,
            forces: Forces {
                form: choices.form,
                p2s,
                s2p,
                shortest,
                nonzero,
                constants,
            },
        },
        grid: Grid {
            mesh: *mesh,
            matrix: *matrix,
            addresses,
        },
        bands,
        phonons: Phonons {
            frequencies,
            eigenvectors,
        },
    };
    number_of(interaction::get_interaction_at_triplet(&tables, *triplet, flags, strengths, work))
}

// A list of triplets.
#[unsafe(no_mangle)]
pub extern "C" fn wirambolo_get_interaction(
    atoms: usize,
    supercell: usize,
    first: usize,
    grid: usize,
    vectors_count: usize,
    anchoring: u8,
    cutoff: f64,
    form: u8,
    symmetry: u8,
    mesh: &[i64; 3],
    matrix: &[i64; 9],
    list: usize,
    triplets: &[i64],
    addresses: &[i64],
    vectors: &[f64],
    multiplicity: &[i64],
    p2s: &[i64],
    s2p: &[i64],
    masses: &[f64],
    bands: &[i64],
    frequencies: &[f64],
    eigenvectors: &[f64],
    shortest: &[u8],
    nonzero: &[u8],
    constants: &[f64],
    flags: &[u8],
    strengths: &mut [f64],
    work: &mut [f64],
) -> u8
    ensures { ◌≡◌ {A = Strengths} (record { answer = result; strengths = strengths.new; work = work.new })
        (Foreign.list_answer (Foreign.choices_known anchoring form symmetry) (record {
          tables = record {
            measures = record { atoms = atoms; supercell = supercell; first = first; grid = grid; vectors = vectors_count };
            settings = record { anchoring = Foreign.anchoring_of anchoring; cutoff = cutoff };
            symmetry = Foreign.symmetry_of symmetry;
            crystal = record {
              vectors = vectors.now;
              multiplicity = multiplicity.now;
              masses = masses.now;
              forces = record {
                form = Foreign.form_of form;
                p2s = p2s.now;
                s2p = s2p.now;
                shortest = shortest.now;
                nonzero = nonzero.now;
                constants = constants.now;
              };
            };
            grid = record { mesh = mesh.now; matrix = matrix.now; addresses = addresses.now };
            bands = bands.now;
            phonons = record { frequencies = frequencies.now; eigenvectors = eigenvectors.now };
          };
          list = list;
          triplets = triplets.now;
          flags = flags.now;
          strengths = strengths.old;
          work = work.old;
        })) }
{
    let Some(choices) = choices_of(anchoring, form, symmetry) else {
        return UNKNOWN;
    };
    let tables = Tables {
        measures: Measures {
            atoms,
            supercell,
            first,
            grid,
            vectors: vectors_count,
        },
        settings: Settings {
            anchoring: choices.anchoring,
            cutoff,
        },
        symmetry: choices.symmetry,
        crystal: Crystal {
            vectors,
            multiplicity,
            masses,
            forces: Forces {
                form: choices.form,
                p2s,
                s2p,
                shortest,
                nonzero,
                constants,
            },
        },
        grid: Grid {
            mesh: *mesh,
            matrix: *matrix,
            addresses,
        },
        bands,
        phonons: Phonons {
            frequencies,
            eigenvectors,
        },
    };
    number_of(interaction::list::get_interaction(&tables, list, triplets, flags, strengths, work))
}

// Totals alone.
#[unsafe(no_mangle)]
pub extern "C" fn wirambolo_imag_self_energy_at_triplet(
    atoms: usize,
    first: usize,
    grid: usize,
    weights: u8,
    triplet: &[i64; 3],
    frequencies: &[f64],
    cutoff: f64,
    flags: &[u8],
    strengths: &[f64],
    weight: i64,
    temperature: f64,
    first_weights: &[f64],
    second_weights: &[f64],
    totals: &mut [f64],
) -> u8
    ensures { ◌≡◌ {A = Totals} (record { answer = result; totals = totals.new })
        (Foreign.totals_answer (Foreign.known weights) (record {
          measures = record { atoms = atoms; first = first; grid = grid };
          weights = Foreign.weights_of weights;
          triplet = triplet.now;
          frequencies = frequencies.now;
          cutoff = cutoff;
          flags = flags.now;
          strengths = strengths.now;
          bath = record { weight = weight; temperature = temperature };
          first = first_weights.now;
          second = second_weights.now;
          totals = totals.old;
        })) }
{
    let Some(weights) = weights_of(weights) else {
        return UNKNOWN;
    };
    let m = TotalsMeasures { atoms, first, grid };
    let bath = Bath {
        weight,
        temperature,
    };
    let integration = IntegrationWeights {
        first: first_weights,
        second: second_weights,
    };
    number_of(imag_self_energy::imag_self_energy_at_triplet(
        m,
        weights,
        *triplet,
        frequencies,
        cutoff,
        flags,
        strengths,
        bath,
        integration,
        totals,
    ))
}

// One triplet and its totals joined.
#[unsafe(no_mangle)]
pub extern "C" fn wirambolo_joined_at_triplet(
    atoms: usize,
    supercell: usize,
    first: usize,
    grid: usize,
    vectors_count: usize,
    anchoring: u8,
    cutoff: f64,
    form: u8,
    symmetry: u8,
    mesh: &[i64; 3],
    matrix: &[i64; 9],
    triplet: &[i64; 3],
    addresses: &[i64],
    vectors: &[f64],
    multiplicity: &[i64],
    p2s: &[i64],
    s2p: &[i64],
    masses: &[f64],
    bands: &[i64],
    frequencies: &[f64],
    eigenvectors: &[f64],
    shortest: &[u8],
    nonzero: &[u8],
    constants: &[f64],
    flags: &[u8],
    weight: i64,
    temperature: f64,
    first_weights: &[f64],
    second_weights: &[f64],
    strengths: &mut [f64],
    totals: &mut [f64],
    work: &mut [f64],
) -> u8
    ensures { ◌≡◌ {A = Joined}
        (record { answer = result; strengths = strengths.new; totals = totals.new; work = work.new })
        (Foreign.joined_answer (Foreign.choices_known anchoring form symmetry) (record {
          tables = record {
            measures = record { atoms = atoms; supercell = supercell; first = first; grid = grid; vectors = vectors_count };
            settings = record { anchoring = Foreign.anchoring_of anchoring; cutoff = cutoff };
            symmetry = Foreign.symmetry_of symmetry;
            crystal = record {
              vectors = vectors.now;
              multiplicity = multiplicity.now;
              masses = masses.now;
              forces = record {
                form = Foreign.form_of form;
                p2s = p2s.now;
                s2p = s2p.now;
                shortest = shortest.now;
                nonzero = nonzero.now;
                constants = constants.now;
              };
            };
            grid = record { mesh = mesh.now; matrix = matrix.now; addresses = addresses.now };
            bands = bands.now;
            phonons = record { frequencies = frequencies.now; eigenvectors = eigenvectors.now };
          };
          triplet = triplet.now;
          flags = flags.now;
          bath = record { weight = weight; temperature = temperature };
          first = first_weights.now;
          second = second_weights.now;
          strengths = strengths.old;
          totals = totals.old;
          work = work.old;
        })) }
{
    let Some(choices) = choices_of(anchoring, form, symmetry) else {
        return UNKNOWN;
    };
    let tables = Tables {
        measures: Measures {
            atoms,
            supercell,
            first,
            grid,
            vectors: vectors_count,
        },
        settings: Settings {
            anchoring: choices.anchoring,
            cutoff,
        },
        symmetry: choices.symmetry,
        crystal: Crystal {
            vectors,
            multiplicity,
            masses,
            forces: Forces {
                form: choices.form,
                p2s,
                s2p,
                shortest,
                nonzero,
                constants,
            },
        },
        grid: Grid {
            mesh: *mesh,
            matrix: *matrix,
            addresses,
        },
        bands,
        phonons: Phonons {
            frequencies,
            eigenvectors,
        },
    };
    let bath = Bath {
        weight,
        temperature,
    };
    let integration = IntegrationWeights {
        first: first_weights,
        second: second_weights,
    };
    number_of(joined::joined_at_triplet(
        &tables,
        *triplet,
        flags,
        bath,
        integration,
        strengths,
        totals,
        work,
    ))
}

// The integration weights of one triplet, from a shape.
#[unsafe(no_mangle)]
pub extern "C" fn wirambolo_integration_weights_at_triplet(
    atoms: usize,
    first: usize,
    grid: usize,
    shape: u8,
    width: f64,
    triplet: &[i64; 3],
    bands: &[i64],
    frequencies: &[f64],
    first_weights: &mut [f64],
    second_weights: &mut [f64],
    flags: &mut [u8],
) -> u8
    ensures { ◌≡◌ {A = WeightsAnswer}
        (record { answer = result; first = first_weights.new; second = second_weights.new; flags = flags.new })
        (Foreign.weights_answer (Foreign.shape_known shape) (record {
          measures = record { atoms = atoms; first = first; grid = grid };
          shape = Foreign.shape_of shape width;
          triplet = triplet.now;
          bands = bands.now;
          frequencies = frequencies.now;
          first = first_weights.old;
          second = second_weights.old;
          flags = flags.old;
        })) }
{
    let Some(shape) = shape_of(shape, width) else {
        return UNKNOWN;
    };
    let m = TotalsMeasures { atoms, first, grid };
    number_of(integration_weights::integration_weights_at_triplet(
        m,
        shape,
        *triplet,
        bands,
        frequencies,
        first_weights,
        second_weights,
        flags,
    ))
}
