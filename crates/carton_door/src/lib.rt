// The joined door on the set of a carton.
#![tactic(auto)]

ghost use Rattle.std.specs.Prelude.{◌≡◌, length};
ghost use Rattle.phonon.specs.Answers.{number_of};
ghost use Rattle.phonon.specs.Doors.{JoinedOutcome, joined_outcome};
ghost use Rattle.carton.specs.Fitted.{Fitted};
ghost use Rattle.carton.specs.Tables.{lists_of, set_in};

use carton::{Columns, Heading};
use joined::joined_at_triplet;
use phonon::{Bath, Crystal, Forces, Grid, IntegrationWeights, Phonons, Refusal, Settings, Tables};
use planes::array_at;

// Strengths, totals and work stand side by side: the joined door takes them so, and a struct of them would be taken apart for that one call.
pub fn run_door(
    h: &Heading,
    columns: &Columns<'_>,
    strengths: &mut [f64],
    totals: &mut [f64],
    work: &mut [f64],
) -> Result<(), Refusal>
    requires { Fitted h.now (length columns.now.floats.now) }
    ensures { ◌≡◌ {A = JoinedOutcome}
        (record { answer = number_of result; strengths = strengths.new; totals = totals.new; work = work.new })
        (joined_outcome (set_in (lists_of columns.now) h.now strengths.old totals.old work.old)) }
{
    let p = h.places;
    let floats = columns.floats;
    let ints = columns.ints;
    let bytes = columns.bytes;
    let mesh = array_at(ints, 10);
    let matrix = array_at(ints, 13);
    let triplet = array_at(ints, 22);
    let tables = Tables {
        measures: h.measures,
        settings: Settings {
            anchoring: h.anchoring,
            cutoff: floats[8],
        },
        symmetry: h.symmetry,
        crystal: Crystal {
            vectors: &floats[p.vectors..p.multiplicity],
            multiplicity: &ints[p.multiplicity..p.p2s],
            masses: &floats[p.masses..p.bands],
            forces: Forces {
                form: h.form,
                p2s: &ints[p.p2s..p.s2p],
                s2p: &ints[p.s2p..p.masses],
                shortest: &bytes[p.shortest..p.nonzero],
                nonzero: &bytes[p.nonzero..p.flags],
                constants: &floats[p.constants..p.first],
            },
        },
        grid: Grid {
            mesh,
            matrix,
            addresses: &ints[25..p.vectors],
        },
        bands: &ints[p.bands..p.frequencies],
        phonons: Phonons {
            frequencies: &floats[p.frequencies..p.eigenvectors],
            eigenvectors: &floats[p.eigenvectors..p.shortest],
        },
    };
    let bath = Bath {
        weight: ints[7],
        temperature: floats[9],
    };
    let integration = IntegrationWeights {
        first: &floats[p.first..p.second],
        second: &floats[p.second..p.end],
    };
    joined_at_triplet(
        &tables,
        triplet,
        &bytes[p.flags..p.constants],
        bath,
        integration,
        strengths,
        totals,
        work,
    )
}
