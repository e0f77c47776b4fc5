// The sums over pairs of supercell atoms: 27 numbers for each three atoms of the primitive cell.
ghost use Rattle.std.specs.Prelude.{◌≡◌, ◌+◌, ◌*◌, ◌<◌, ◌≤◌, length};
ghost use Rattle.phonon.specs.Number.{at, flagged};
ghost use Rattle.phonon.specs.Common.{cadd, scale};
ghost use Rattle.phonon.specs.Handed.{forces_of};
ghost use Rattle.phonon.specs.RealToReciprocal as Def;
ghost use Rattle.planes.specs.Split.{split, WroteSplit, Cols};
ghost use Rattle.real_to_reciprocal.specs.Pair.{pair_step, BlockIn, with_block, HeldIn, with_held, Settled};
ghost use Rattle.real_to_reciprocal.specs.Stored.{AtomsBelow};

use crate::sums::change_each;
use crate::supercell::Supercell;
use common::{cmplx_add, cmplx_mul, cmplx_scale};
use phonon::{Complex, Forces, Form, Leg, Legs};
use planes::{get_split, index_at};
use std::convert::AsSlice;

// The row of the force constants for atom i.
fn row_of(form: Form, p2s: &[i64], i: usize) -> usize
    requires { i < length p2s.now }
    ensures { result ≡ Def.row_of form p2s.now i }
{
    match form {
        Form::Compact => i,
        Form::Full => index_at(p2s, i),
    }
}

// Whether a leg passes the pair of entry n: legs 2 and 3 pass all-shortest pairs.
#[inline(always)]
fn passes(leg: Leg, shortest: &[u8], n: usize) -> bool
    requires { n < length shortest.now }
    ensures { result ≡ Def.passes leg (flagged shortest.now n) }
{
    match leg {
        Leg::Alone | Leg::First => false,
        Leg::Second | Leg::Third => shortest[n] != 0,
    }
}

// What a leg multiplies the pair of entry n by: leg 1 takes all-shortest pairs times 3.0.
#[inline(always)]
fn factor(leg: Leg, shortest: &[u8], n: usize) -> f64
    requires { n < length shortest.now }
    ensures { result ≡ Def.factor leg (flagged shortest.now n) }
{
    match leg {
        Leg::Alone => 1.0,
        Leg::First => if shortest[n] != 0 { 3.0 } else { 1.0 },
        Leg::Second => 1.0,
        Leg::Third => 1.0,
    }
}

// z times the 27 force constants from `base` on.
#[derive(Clone, Copy)]
struct Block {
    base: usize,
    z: Complex,
}

// s, the sum of element e, with a block.
fn plus(s: Complex, constants: &[f64], block: Block, e: usize) -> Complex
    requires { (e < 27) × BlockIn constants.now block }
    ensures { result ≡ with_block constants.now block e s }
{
    cmplx_add(s, cmplx_scale(block.z, constants[block.base + e]))
}

// Adds a block to the 27 sums of t.
fn add_block(t: &mut [f64; 54], constants: &[f64], block: Block)
    requires { BlockIn constants.now block }
    ensures { WroteSplit t.old t.new 0 27 27 (λ e. with_block constants.now block e (split t.old 0 27 e)) }
{
    change_each(t, |e, s| plus(s, constants, block, e));
}

// The same for two blocks, one after the other: each sum is loaded and stored once for both.
fn add_two(t: &mut [f64; 54], constants: &[f64], one: Block, two: Block)
    requires { BlockIn constants.now one × BlockIn constants.now two }
    ensures { WroteSplit t.old t.new 0 27 27
        (λ e. with_block constants.now two e (with_block constants.now one e (split t.old 0 27 e))) }
{
    change_each(t, |e, s| {
        let r = plus(s, constants, one, e);
        plus(r, constants, two, e)
    });
}

// Adds the block that waits, if one does.
#[inline(always)]
fn add_held(t: &mut [f64; 54], constants: &[f64], held: Option<Block>)
    requires { HeldIn constants.now held }
    ensures { WroteSplit t.old t.new 0 27 27
        (λ e. with_held constants.now held e (split t.old 0 27 e)) }
{
    if let Some(block) = held {
        add_block(t, constants, block);
    }
}

// Takes one more block: adds it together with the one that waits, or has it wait.
#[inline(always)]
fn take_block(
    t: &mut [f64; 54],
    constants: &[f64],
    held: Option<Block>,
    block: Block,
) -> Option<Block>
    requires { HeldIn constants.now held × BlockIn constants.now block }
    ensures { Settled constants.now t.new result
        (λ e. with_block constants.now block e (with_held constants.now held e (split t.old 0 27 e))) }
{
    match held {
        Some(first) => {
            add_two(t, constants, first, block);
            None
        }
        None => Some(block),
    }
}

// What the turns of all pairs have in common: the tables, atom i and its row of force constants, and the phase factors
// of the second and the third atom, which are numbers in planes of w, from f1 and from f2 on, d apart.
#[derive(Clone, Copy)]
struct Pairs<'a> {
    w: &'a [f64],
    f1: usize,
    f2: usize,
    d: usize,
    leg: Leg,
    forces: Forces<'a>,
    ns: usize,
    i: usize,
    row: usize,
}

// The turn of the pair (j, k) of supercell atoms. `held` is the block that waits, as is the result.
#[inline(always)]
fn add_pair(
    t: &mut [f64; 54],
    pairs: &Pairs<'_>,
    j: usize,
    k: usize,
    held: Option<Block>,
) -> Option<Block>
    requires { (k < pairs.now.ns)
        × ((pairs.now.i * pairs.now.ns + j) * pairs.now.ns + k < length pairs.now.forces.shortest.now)
        × ((pairs.now.row * pairs.now.ns + j) * pairs.now.ns + k < length pairs.now.forces.nonzero.now)
        × (((pairs.now.row * pairs.now.ns + j) * pairs.now.ns + k) * 27 + 27 ≤ length pairs.now.forces.constants.now)
        × (pairs.now.f1 + pairs.now.d + (pairs.now.i * pairs.now.ns + j) < length pairs.now.w.now)
        × (pairs.now.f2 + pairs.now.d + (pairs.now.i * pairs.now.ns + k) < length pairs.now.w.now)
        × HeldIn pairs.now.forces.constants.now held }
    ensures { Settled pairs.now.forces.constants.now t.new result
        (λ e. pair_step pairs.now.forces.shortest.now pairs.now.forces.nonzero.now
        pairs.now.forces.constants.now pairs.now.leg (split pairs.now.w.now pairs.now.f1 pairs.now.d)
        (split pairs.now.w.now pairs.now.f2 pairs.now.d) pairs.now.ns pairs.now.i pairs.now.row j k e
        (with_held pairs.now.forces.constants.now held e (split t.old 0 27 e))) }
{
    let Forces {
        shortest,
        nonzero,
        constants,
        ..
    } = pairs.forces;
    let n = (pairs.row * pairs.ns + j) * pairs.ns + k;
    if nonzero[n] == 0 {
        return held;
    }
    let s = (pairs.i * pairs.ns + j) * pairs.ns + k;
    if passes(pairs.leg, shortest, s) {
        return held;
    }
    let p = cmplx_mul(
        get_split(pairs.w, pairs.f1, pairs.d, pairs.i * pairs.ns + j),
        get_split(pairs.w, pairs.f2, pairs.d, pairs.i * pairs.ns + k),
    );
    let block = Block {
        base: n * 27,
        z: cmplx_scale(p, factor(pairs.leg, shortest, s)),
    };
    take_block(t, constants, held, block)
}

// The 27 sums for three atoms, real parts first. Phase factors are np * ns numbers in planes of w: those of the second
// atom's leg from f1 on, those of the third's from f2 on.
#[inline(always)]
pub fn real_to_reciprocal_elements<T: AsSlice<u16>>(
    w: &[f64],
    f1: usize,
    f2: usize,
    cell: &Supercell<'_, T>,
    leg: Leg,
    atoms: Legs<usize>,
) -> [f64; 54]
    requires { (f1 + 2 * (cell.now.np * cell.now.ns) ≤ length w.now)
        × (f2 + 2 * (cell.now.np * cell.now.ns) ≤ length w.now)
        × AtomsBelow cell.now.np atoms }
    ensures { Cols result 27
        (Def.element cell.now.ns (forces_of cell.now.forces) leg
        (split w.now f1 (cell.now.np * cell.now.ns)) (split w.now f2 (cell.now.np * cell.now.ns))
        atoms.leg0 atoms.leg1 atoms.leg2) }
{
    let forces = cell.forces;
    let i = atoms.leg0;
    let pairs = Pairs {
        w,
        f1,
        f2,
        d: cell.np * cell.ns,
        leg,
        forces,
        ns: cell.ns,
        i,
        row: row_of(forces.form, forces.p2s, i),
    };
    let mut s: [f64; 54] = [0.0; 54];
    let mut held = None;
    // Walks along links; `successors` would hand the next copy to a closure, and read no plainer.
    let mut second = cell.first_copy(atoms.leg1);
    while let Some(j) = second {
        let mut third = cell.first_copy(atoms.leg2);
        while let Some(k) = third {
            held = add_pair(&mut s, &pairs, j, k, held);
            third = cell.copy_after(k);
        }
        second = cell.copy_after(j);
    }
    add_held(&mut s, forces.constants, held);
    s
}
