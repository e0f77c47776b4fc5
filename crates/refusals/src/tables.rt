// Numbers 2 to 7 of the tables. Number 6 is checks::all_positive, and number 7 checks::values::cutoff_ok.
ghost use Rattle.std.specs.Prelude.{◌≡◌, true, ◌*◌, length};
ghost use Rattle.phonon.specs.Answers.{number_of};
ghost use Rattle.phonon.specs.Handed.{crystal_of, grid_of, phonons_of, tables_of};
ghost use Rattle.phonon.specs.Limits.{sizes_of};
ghost use Rattle.phonon.specs.Tests.{all_true};
ghost use Rattle.phonon.specs.Refusal.{lowest, measures_ok, table_lengths, indices_ok, tables_finite, mesh_ok, tests_of};

use checks::limits;
use checks::sizes::sizes_of;
use checks::values::cutoff_ok;
use checks::verdict::require;
use phonon::{Crystal, Grid, Measures, Phonons, Refusal, Tables};

// 2: the lengths of all.
#[tactic(auto, using(checks::proofs::MeasureLaws::small))]
fn lengths_ok(tables: &Tables<'_>) -> bool
    requires { measures_ok tables.now.measures ≡ true }
    ensures { result ≡ all_true (table_lengths tables.now.measures
        (sizes_of tables.now.measures tables.now.crystal.forces.form) (crystal_of tables.now.crystal)
        tables.now.grid.addresses.now tables.now.bands.now (phonons_of tables.now.phonons)) }
{
    let m = tables.measures;
    let forces = tables.crystal.forces;
    let z = sizes_of(m, forces.form);
    (tables.grid.addresses.len() == z.addresses)
        & (tables.crystal.vectors.len() == z.vectors)
        & (tables.crystal.multiplicity.len() == z.multiplicity)
        & (forces.p2s.len() == m.atoms)
        & (forces.s2p.len() == m.supercell)
        & (tables.crystal.masses.len() == m.atoms)
        & (tables.bands.len() == m.first)
        & (tables.phonons.frequencies.len() == z.frequencies)
        & (tables.phonons.eigenvectors.len() == z.eigenvectors)
        & (forces.shortest.len() == z.shortest)
        & (forces.nonzero.len() == z.nonzero)
        & (forces.constants.len() == z.constants)
}

// 3: p2s, s2p, bands and vector ranges.
#[tactic(auto, using(phonon::proofs::Accepted::measured_facts))]
fn indices_ok(m: Measures, crystal: &Crystal<'_>, bands: &[i64]) -> bool
    requires { (measures_ok m ≡ true) × (length crystal.now.multiplicity.now ≡ 2 * (m.supercell * m.atoms)) }
    ensures { result ≡ indices_ok m crystal.now.multiplicity.now crystal.now.forces.p2s.now
        crystal.now.forces.s2p.now bands.now }
{
    let atoms = m.atoms;
    let supercell = m.supercell;
    let last_atom = (supercell - 1) as i64;
    let last_band = (3 * atoms - 1) as i64;
    checks::all_within(0, last_atom, crystal.forces.p2s)
        & checks::all_within(0, last_atom, crystal.forces.s2p)
        & checks::all_within(0, last_band, bands)
        & checks::first_bad_entry(crystal.multiplicity, supercell, atoms, m.vectors).is_none()
}

// 4: the cutoff and the tables.
#[tactic(auto, unfolding(phonon::specs::Refusal::tables_finite, phonon::specs::Tests::all_true, phonon::specs::Tests::all_true_after))]
fn tables_finite(cutoff: f64, crystal: &Crystal<'_>, phonons: &Phonons<'_>) -> bool
    ensures { result ≡ tables_finite cutoff crystal.now.vectors.now crystal.now.masses.now
        phonons.now.frequencies.now phonons.now.eigenvectors.now crystal.now.forces.constants.now }
{
    checks::is_finite(cutoff)
        & checks::all_finite(crystal.vectors)
        & checks::all_finite(crystal.masses)
        & checks::all_finite(phonons.frequencies)
        & checks::all_finite(phonons.eigenvectors)
        & checks::all_finite(crystal.forces.constants)
}

// 5: the mesh, the q matrix and the addresses.
#[tactic(auto, unfolding(phonon::specs::Refusal::mesh_ok, phonon::specs::Tests::all_true, phonon::specs::Tests::all_true_after))]
fn mesh_ok(grid: &Grid<'_>) -> bool
    ensures { result ≡ mesh_ok (grid_of grid.now) }
{
    checks::all_within(limits::LOWEST_MESH, limits::HIGHEST_MESH, &grid.mesh)
        & checks::all_within(limits::LOWEST_MATRIX, limits::HIGHEST_MATRIX, &grid.matrix)
        & checks::all_within(
            limits::LOWEST_ADDRESS,
            limits::HIGHEST_ADDRESS,
            grid.addresses,
        )
}

// All of them. The measures have been checked before.
pub fn check_tables(tables: &Tables<'_>) -> Result<(), Refusal>
    requires { measures_ok tables.now.measures ≡ true }
    ensures { number_of result ≡ lowest (tests_of (tables_of tables.now)) }
{
    let crystal = &tables.crystal;
    let cutoff = tables.settings.cutoff;
    require(lengths_ok(tables), Refusal::Length)?;
    require(
        indices_ok(tables.measures, crystal, tables.bands),
        Refusal::Index,
    )?;
    require(
        tables_finite(cutoff, crystal, &tables.phonons),
        Refusal::NotFinite,
    )?;
    require(mesh_ok(&tables.grid), Refusal::Mesh)?;
    require(checks::all_positive(crystal.masses), Refusal::Mass)?;
    require(cutoff_ok(cutoff), Refusal::Cutoff)
}
