// Document 01's key cases M1 to M11 through the four doors: cell U with each case's change, and every number of every
// buffer compared with what the case says, bit for bit. Writes a line for each case, and at the end how many passed.
//
// Each case goes through every door, which takes of it what it is handed: M10's multiplicity is nothing to totals alone, nor
// M11's temperature to the doors of the strengths. A list has the triplet twice. Totals alone reads the case's strengths.
#![tactic(auto)]

mod case;

ghost use Rattle.std.specs.Prelude.{◌≡◌, ◌+◌, ◌-◌, ◌≤◌, Decides, ◌∷◌, ◌++◌, length, replicate, slice_index_or};
ghost use Rattle.std.proofs.Math.Seq.{paste};
ghost use Rattle.phonon.specs.Answers.{number_of};
ghost use Rattle.phonon.specs.Number.{f0};
ghost use Rattle.phonon.specs.KeyCases.{M1, key_cases};
ghost use Rattle.phonon.specs.Handed.{tables_of};
ghost use Rattle.phonon.specs.Doors.{StrengthsOutcome, TotalsOutcome, JoinedOutcome, triplet_outcome, list_outcome, totals_outcome, joined_outcome};
ghost use Rattle.key_cases.specs.Cells as Cells;
ghost use Rattle.key_cases.specs.Left.{Left, run_of, expected_of};

use crate::case::{Buffers, Case, Cell};
use common::bits::bits_of;
use phonon::{
    Anchoring, Bath, Crystal, Forces, Form, Grid, IntegrationWeights, Measures, Phonons, Refusal,
    Settings, Symmetry, Tables, TotalsMeasures, Weights, number_of,
};
use std::{fmt, io};

// ---- the table

// Case Mn: set and result are those of the definitions' table, which has also the totals that document 01 leaves out. Slot
// (0, 1, 2) is number 5.
#[tactic(auto, unfolding(crate::specs::Cells::key_case_of, crate::specs::Cells::cell_of, crate::specs::Cells::outcome_of, crate::specs::Cells::joined_number, phonon::proofs::Evaluate::evaluate))]
fn case_of(n: usize) -> Case
    requires { (1 ≤ n) × (n ≤ 11) }
    ensures { Cells.Sized result × (Cells.key_case_of result ≡ slice_index_or key_cases (n - 1) M1) }
{
    let mut c = Case {
        cutoff: 0.5,
        anchoring: Anchoring::Plain,
        symmetry: Symmetry::Off,
        shortest: 0,
        nonzero: 1,
        constant: 16.0,
        count: 1,
        first: 3,
        bands: [0, 1, 2],
        flags: [0; 54],
        temperature: 0.0,
        strengths_answer: Ok(()),
        totals_answer: Ok(()),
        strengths: [0.0; 27],
        totals: [3.0, 0.0, 0.0],
    };
    c.strengths[5] = 0.5;
    match n {
        2 => {
            c.cutoff = 1.0;
            c.strengths[5] = 0.0;
            c.totals = [0.0, 0.0, 0.0];
        }
        3 => {
            c.cutoff = 0.75;
        }
        4 => {
            c.flags[5] = 1;
            c.flags[32] = 1;
            c.strengths[5] = -1.0;
            c.totals = [0.0, 0.0, 0.0];
        }
        5 => {
            c.flags[5] = 1;
            c.flags[32] = 1;
            c.symmetry = Symmetry::Symmetrized;
            c.strengths[5] = 0.0;
            c.strengths[7] = TWELFTH;
            c.strengths[11] = TWELFTH;
            c.strengths[15] = TWELFTH;
            c.strengths[19] = TWELFTH;
            c.strengths[21] = TWELFTH;
            c.totals = [0.5, 1.0, 1.0];
        }
        6 => {
            c.anchoring = Anchoring::Averaged;
            c.shortest = 1;
        }
        7 => {
            c.anchoring = Anchoring::Averaged;
            c.constant = 48.0;
            c.strengths[11] = 0.5;
            c.strengths[21] = 0.5;
            c.totals = [3.0, 3.0, 3.0];
        }
        8 => {
            c.nonzero = 0;
            c.strengths[5] = 0.0;
            c.totals = [0.0, 0.0, 0.0];
        }
        9 => {
            c.first = 2;
            c.bands = [0, 0, 0];
            c.strengths[14] = 0.5;
            c.totals = [3.0, 3.0, 0.0];
        }
        10 => {
            c.count = 0;
            c.strengths_answer = Err(Refusal::Index);
        }
        11 => {
            c.temperature = -0.0;
            c.totals_answer = Err(Refusal::Bath);
        }
        _ => {}
    }
    c
}

// 0.5 / 6 rounded: the bits are 3fb5555555555555.
const TWELFTH: f64 = 0.08333333333333333;

// ---- the doors

const VECTOR: [f64; 3] = [0.0, 0.0, 0.0];

const FIRST_ATOM: [i64; 1] = [0];

const POINTS: [i64; 3] = [0, 0, 0];

const MASSES: [f64; 1] = [4.0];

const FREQUENCIES: [f64; 3] = [1.0, 2.0, 4.0];

const EIGENVECTORS: [f64; 18] = [
    1.0, 0.0, 0.0, 0.0, 0.0, 0.0, 0.0, 0.0, 1.0, 0.0, 0.0, 0.0, 0.0, 0.0, 0.0, 0.0, 1.0, 0.0,
];

// The first and the second weights, of which as many are handed in as there are slots.
const FIRST_WEIGHTS: [f64; 27] = [2.0; 27];

const SECOND_WEIGHTS: [f64; 27] = [0.0; 27];

// The force constants: 0 but x at (0, 1, 2).
fn constants_of(x: f64) -> [f64; 27]
    ensures { result ≡ replicate 5 f0 ++ x ∷ replicate 21 f0 }
{
    let mut r = [0.0; 27];
    r[5] = x;
    r
}

// The case's own entries of the tables.
fn entries_of(c: &Case) -> Cell
    ensures { Cells.Entries c.now result }
{
    Cell {
        multiplicity: [c.count, 0],
        shortest: [c.shortest],
        nonzero: [c.nonzero],
        constants: constants_of(c.constant),
    }
}

// The tables of cell U with the case's change.
fn tables<'a>(c: &Case, entries: &'a Cell, bands: &'a [i64]) -> Tables<'a>
    requires { Cells.Entries c.now entries.now }
    ensures { tables_of result ≡ Cells.tables_of c.now bands.now }
{
    Tables {
        measures: Measures {
            atoms: 1,
            supercell: 1,
            first: bands.len(),
            grid: 1,
            vectors: 1,
        },
        settings: Settings {
            anchoring: c.anchoring,
            cutoff: c.cutoff,
        },
        symmetry: c.symmetry,
        crystal: Crystal {
            vectors: &VECTOR,
            multiplicity: &entries.multiplicity,
            masses: &MASSES,
            forces: Forces {
                form: Form::Compact,
                p2s: &FIRST_ATOM,
                s2p: &FIRST_ATOM,
                shortest: &entries.shortest,
                nonzero: &entries.nonzero,
                constants: &entries.constants,
            },
        },
        grid: Grid {
            mesh: [1, 1, 1],
            matrix: [1, 0, 0, 0, 1, 0, 0, 0, 1],
            addresses: &POINTS,
        },
        bands,
        phonons: Phonons {
            frequencies: &FREQUENCIES,
            eigenvectors: &EIGENVECTORS,
        },
    }
}

fn bath_of(c: &Case) -> Bath
    ensures { result ≡ Cells.bath_of c.now }
{
    Bath {
        weight: 3,
        temperature: c.temperature,
    }
}

// No closures: a door is also what its expectation goes by, and a word of the line.
#[derive(Clone, Copy)]
enum Door {
    Triplet,
    List,
    Totals,
    Joined,
}

impl fmt::Display for Door {
    fn fmt<W: fmt::Write>(&self, f: &mut fmt::Formatter<W>) -> fmt::Result {
        f.write_str(match self {
            Door::Triplet => "triplet",
            Door::List => "list",
            Door::Totals => "totals",
            Door::Joined => "joined",
        })
    }
}

// One triplet.
fn run_triplet(
    c: &Case,
    bands: &[i64],
    flags: &[u8],
    strengths: &mut [f64],
    work: &mut [f64],
) -> Result<(), Refusal>
    ensures { ◌≡◌ {A = StrengthsOutcome}
        (record { answer = number_of result; strengths = strengths.new; work = work.new })
        (triplet_outcome (Cells.triplet_of c.now bands.now flags.now strengths.old work.old)) }
{
    let entries = entries_of(c);
    interaction::get_interaction_at_triplet(
        &tables(c, &entries, bands),
        [0, 0, 0],
        flags,
        strengths,
        work,
    )
}

// A list of the triplet twice.
fn run_list(
    c: &Case,
    bands: &[i64],
    flags: &[u8],
    strengths: &mut [f64],
    work: &mut [f64],
) -> Result<(), Refusal>
    ensures { ◌≡◌ {A = StrengthsOutcome}
        (record { answer = number_of result; strengths = strengths.new; work = work.new })
        (list_outcome (Cells.list_of c.now bands.now flags.now strengths.old work.old)) }
{
    let entries = entries_of(c);
    interaction::list::get_interaction(
        &tables(c, &entries, bands),
        2,
        &[0, 0, 0, 0, 0, 0],
        flags,
        strengths,
        work,
    )
}

// One triplet and its totals joined.
fn run_joined(
    c: &Case,
    bands: &[i64],
    flags: &[u8],
    integration: IntegrationWeights<'_>,
    strengths: &mut [f64],
    totals: &mut [f64],
    work: &mut [f64],
) -> Result<(), Refusal>
    ensures { ◌≡◌ {A = JoinedOutcome}
        (record { answer = number_of result; strengths = strengths.new; totals = totals.new; work = work.new })
        (joined_outcome
        (Cells.joined_of c.now bands.now flags.now integration.entry.first.now integration.entry.second.now
        strengths.old totals.old work.old)) }
{
    let entries = entries_of(c);
    joined::joined_at_triplet(
        &tables(c, &entries, bands),
        [0, 0, 0],
        flags,
        bath_of(c),
        integration,
        strengths,
        totals,
        work,
    )
}

// Totals alone.
fn run_totals(
    c: &Case,
    flags: &[u8],
    integration: IntegrationWeights<'_>,
    strengths: &[f64],
    totals: &mut [f64],
) -> Result<(), Refusal>
    ensures { ◌≡◌ {A = TotalsOutcome} (record { answer = number_of result; totals = totals.new })
        (totals_outcome
        (Cells.totals_of c.now flags.now integration.entry.first.now integration.entry.second.now strengths.now
        totals.old)) }
{
    imag_self_energy::imag_self_energy_at_triplet(
        TotalsMeasures {
            atoms: 1,
            first: totals.len(),
            grid: 1,
        },
        Weights::PerSlot,
        [0, 0, 0],
        &FREQUENCIES,
        c.cutoff,
        flags,
        strengths,
        bath_of(c),
        integration,
        totals,
    )
}

// Lends a door the part of each buffer that the case's F names, and returns its answer.
// The three buffers are lent side by side: of a struct of arrays behind a reference the borrow check lends no part of one field beside another.
fn run(
    door: Door,
    c: &Case,
    strengths: &mut [f64; 54],
    totals: &mut [f64; 3],
    work: &mut [f64; 205],
) -> Result<(), Refusal>
    requires { Cells.Sized c.now }
    ensures { ◌≡◌ {A = Left}
        (record { number = number_of result; strengths = strengths.new; totals = totals.new; work = work.new })
        (run_of door c.now strengths.old totals.old work.old) }
{
    let first = c.first;
    let slots = 9 * first;
    let both = 18 * first;
    let bands = &c.bands[..first];
    let flags = &c.flags[..slots];
    let integration = IntegrationWeights {
        first: &FIRST_WEIGHTS[..slots],
        second: &SECOND_WEIGHTS[..slots],
    };
    match door {
        Door::Triplet => run_triplet(c, bands, flags, &mut strengths[..slots], work),
        Door::List => run_list(c, bands, &c.flags[..both], &mut strengths[..both], work),
        Door::Totals => run_totals(
            c,
            flags,
            integration,
            &c.strengths[..slots],
            &mut totals[..first],
        ),
        Door::Joined => run_joined(
            c,
            bands,
            flags,
            integration,
            &mut strengths[..slots],
            &mut totals[..first],
            work,
        ),
    }
}

// ---- what the doors are to leave

// The answer that the case names; the doors of the strengths test theirs first.
fn expected_answer(door: Door, c: &Case) -> Result<(), Refusal>
    ensures { number_of result ≡ Cells.number_at door c.now }
{
    match door {
        Door::Triplet => c.strengths_answer,
        Door::List => c.strengths_answer,
        Door::Totals => c.totals_answer,
        Door::Joined => c.strengths_answer.and(c.totals_answer),
    }
}

// Copies n numbers to index at: its calls have in one word (`paste`) what copy_from_slice of a range would tell each of them of its parts.
fn copy(from: &[f64], to: &mut [f64], at: usize, n: usize)
    requires { (n ≤ length from.now) × (at + n ≤ length to.old) }
    ensures { to.new ≡ paste to.old at from.now n }
{
    to[at..at + n].copy_from_slice(&from[..n]);
}

// W of cell U, with P = S = 1.
const W: usize = 203;

// Writes what the door is to leave, in the parts that it is lent. A refused call leaves everything as found. Side by side as those of `run`, so that
// both promises are of the same three.
fn expect(
    door: Door,
    c: &Case,
    strengths: &mut [f64; 54],
    totals: &mut [f64; 3],
    work: &mut [f64; 205],
)
    requires { Cells.Sized c.now }
    ensures { ◌≡◌ {A = Left}
        (record { number = Cells.number_at door c.now; strengths = strengths.new; totals = totals.new; work = work.new })
        (expected_of door c.now strengths.old totals.old work.old) }
{
    if expected_answer(door, c).is_err() {
        return;
    }
    let first = c.first;
    let slots = 9 * first;
    match door {
        Door::Triplet => {
            copy(&c.strengths, strengths, 0, slots);
            work[..W].fill(0.0);
        }
        Door::List => {
            copy(&c.strengths, strengths, 0, slots);
            copy(&c.strengths, strengths, slots, slots);
            work[..W].fill(0.0);
        }
        Door::Totals => {
            copy(&c.totals, totals, 0, first);
        }
        Door::Joined => {
            copy(&c.strengths, strengths, 0, slots);
            copy(&c.totals, totals, 0, first);
            work[..W].fill(0.0);
        }
    }
}

// ---- the comparison

// Whether two slices hold the same bits.
fn same(found: &[f64], expected: &[f64]) -> bool
    ensures { Decides result (found.now ≡ expected.now) }
{
    found.len() == expected.len()
        && found
            .iter()
            .zip(expected)
            .all(|(x, y)| bits_of(*x) == bits_of(*y))
}

// Runs a case through a door, writes the answer and what differs, and returns whether nothing does. Every buffer holds -1.0
// before the call.
fn passes(rt: &impl Print, door: Door, c: &Case) -> io::Result<bool>
    requires { Cells.Sized c.now }
{
    let mut found = Buffers::new();
    let mut expected = Buffers::new();
    let answer = run(
        door,
        c,
        &mut found.strengths,
        &mut found.totals,
        &mut found.work,
    );
    expect(
        door,
        c,
        &mut expected.strengths,
        &mut expected.totals,
        &mut expected.work,
    );
    let agreements = [
        (answer == expected_answer(door, c), "answer"),
        (same(&found.strengths, &expected.strengths), "strengths"),
        (same(&found.totals, &expected.totals), "totals"),
        (same(&found.work, &expected.work), "work"),
    ];
    print!(rt; "{door} {}", number_of(answer))?;
    let mut good = true;
    for (agrees, word) in agreements {
        if !agrees {
            print!(rt; " {word}")?;
        }
        good &= agrees;
    }
    print!(rt; " {}", if good { "ok" } else { "differ" })?;
    Ok(good)
}

// Case Mn through every door, on a line.
fn case_passes(rt: &impl Print, n: usize) -> io::Result<bool>
    requires { (1 ≤ n) × (n ≤ 11) }
{
    let c = case_of(n);
    let mut good = true;
    print!(rt; "M{n}")?;
    let mut between = " ";
    for door in [Door::Triplet, Door::List, Door::Totals, Door::Joined] {
        print!(rt; "{between}")?;
        good &= passes(rt, door, &c)?;
        between = ", ";
    }
    println!(rt;)?;
    Ok(good)
}

fn main(rt: HostRuntime) -> io::Result<()> {
    let mut passed = 0usize;
    for n in 1..=11 {
        if case_passes(&rt, n)? {
            passed += 1;
        }
    }
    println!(rt; "{passed} of 11 passed")
}
