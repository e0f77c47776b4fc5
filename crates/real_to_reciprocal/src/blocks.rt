// The 27 numbers of each three atoms, times the pre-factors, and their places in the work slice.
ghost use Rattle.std.specs.Prelude.{◌≡◌, ◌+◌, ◌*◌, ◌/◌, ◌%◌, ◌<◌, ◌≤◌, length};
ghost use Rattle.phonon.specs.Common.{czero, cadd, cmul};
ghost use Rattle.phonon.specs.Handed.{forces_of};
ghost use Rattle.phonon.specs.RealToReciprocal as Def;
ghost use Rattle.planes.specs.Split.{split, WroteSplit, Cols};
ghost use Rattle.real_to_reciprocal.specs.Stored.{Box, region_end, Stored, factors_in, FactorsBelow, AtomsBelow};

use crate::elements::real_to_reciprocal_elements;
use crate::sums::change_each;
use crate::supercell::Supercell;
use common::{cmplx_add, cmplx_mul};
use phonon::{Anchoring, Complex, Leg, Legs};
use planes::{get_split, put_split};
use std::convert::AsSlice;

// The sum of three numbers from 0.0 on, over 3.0.
#[tactic(auto, unfolding(phonon::specs::RealToReciprocal::over3))]
fn mean(a: Complex, b: Complex, c: Complex) -> Complex
    ensures { result ≡ Def.over3 (cadd (cadd (cadd czero a) b) c) }
{
    let s = cmplx_add(cmplx_add(cmplx_add(Complex { re: 0.0, im: 0.0 }, a), b), c);
    Complex {
        re: s.re / 3.0,
        im: s.im / 3.0,
    }
}

// The mean of three numbers of t, from number e on, of `second`, from f on, and of `third`, from g on in steps of nine.
fn average_run(
    t: &mut [f64; 54],
    second: &[f64; 54],
    third: &[f64; 54],
    e: usize,
    f: usize,
    g: usize,
)
    requires { (e ≤ 24) × (f ≤ 24) × (g < 9) }
    ensures { WroteSplit t.old t.new e 27 3
        (λ n. Def.over3
        (cadd (cadd (cadd czero (split t.old 0 27 (e + n))) (split second.now 0 27 (f + n)))
        (split third.now 0 27 (g + 9 * n)))) }
{
    for n in 0..3 {
        let a = get_split(t, 0, 27, e + n);
        let b = get_split(second, 0, 27, f + n);
        let c = get_split(third, 0, 27, g + 9 * n);
        put_split(t, e, 27, n, mean(a, b, c));
    }
}

// The mean of three legs' numbers, in t. The first and the second index of the second leg are exchanged, and the
// first and the third of the third leg. By runs, which the compiler lays out straight: one loop over 27 numbers it does not, and
// the averaged anchoring then took 1.18 times as long at two atoms.
fn average(t: &mut [f64; 54], second: &[f64; 54], third: &[f64; 54])
    ensures { WroteSplit t.old t.new 0 27 27
        (λ e. Def.over3
        (cadd
        (cadd (cadd czero (split t.old 0 27 e))
        (split second.now 0 27 (e % 9 / 3 * 9 + e / 9 * 3 + e % 3)))
        (split third.now 0 27 (e % 3 * 9 + e % 9 / 3 * 3 + e / 9)))) }
{
    for q in 0..9 {
        let l = q / 3;
        let m = q % 3;
        average_run(t, second, third, 3 * q, m * 9 + l * 3, m * 3 + l);
    }
}

// Three numbers of t, from number e on in steps of three, at `at` in planes d apart.
fn store_run(w: &mut [f64], at: usize, d: usize, t: &[f64; 54], e: usize)
    requires { (e < 21) × (3 ≤ d) × (at + d + 3 ≤ length w.old) }
    ensures { WroteSplit w.old w.new at d 3 (λ m. split t.now 0 27 (e + 3 * m)) }
{
    for m in 0..3 {
        put_split(w, at, d, m, get_split(t, 0, 27, e + 3 * m));
    }
}

// Nine numbers of t: those of component l of the first leg, for three atoms.
fn store_plane(w: &mut [f64], fo: usize, np: usize, atoms: Legs<usize>, l: usize, t: &[f64; 54])
    requires { (l < 3) × AtomsBelow np atoms × (region_end fo np ≤ length w.old) }
    ensures { Stored w.old w.new fo np
        (Box (3 * atoms.leg0 + l) (3 * atoms.leg0 + l + 1) (3 * atoms.leg1) (3 * atoms.leg1 + 3) (3 * atoms.leg2) (3 * atoms.leg2 + 3))
        (λ x y z. split t.now 0 27 (9 * l + y % 3 * 3 + z % 3)) }
{
    let b = 3 * np;
    let d = b * b;
    let al = 3 * atoms.leg0 + l;
    for n in 0..3 {
        let cn = 3 * atoms.leg2 + n;
        store_run(
            w,
            fo + 2 * (al * d) + (cn * b + 3 * atoms.leg1),
            d,
            t,
            9 * l + n,
        );
    }
}

// The 27 numbers of t at the places of three atoms.
pub fn store_block(w: &mut [f64], fo: usize, np: usize, atoms: Legs<usize>, t: &[f64; 54])
    requires { AtomsBelow np atoms × (region_end fo np ≤ length w.old) }
    ensures { Stored w.old w.new fo np
        (Box (3 * atoms.leg0) (3 * atoms.leg0 + 3) (3 * atoms.leg1) (3 * atoms.leg1 + 3) (3 * atoms.leg2) (3 * atoms.leg2 + 3))
        (λ x y z. split t.now 0 27 (x % 3 * 9 + y % 3 * 3 + z % 3)) }
{
    for l in 0..3 {
        store_plane(w, fo, np, atoms, l, t);
    }
}

// Where the pre-factors stand in the work slice, and the phase factors of the three legs.
#[derive(Clone, Copy)]
pub struct FactorPlaces {
    pub pre: usize,
    pub legs: Legs<usize>,
}

impl FactorPlaces {
    ghost use Rattle.std.specs.Prelude.{◌≡◌, get_or};
    ghost use Rattle.phonon.specs.Interaction.{picked};

    // With the legs in this order.
    fn picked(&self, order: [usize; 3]) -> FactorPlaces
        ensures { result ≡ record { pre = self.now.pre; legs = picked self.now.legs (get_or order 0 0) (get_or order 1 0) (get_or order 2 0) } }
    {
        FactorPlaces {
            pre: self.pre,
            legs: self.legs.picked(order),
        }
    }
}

// Writes to t the sums of one leg for three atoms, times the pre-factor of the first. Laid into its callers, so that each
// leg has its own loop. To a lent t: with a block by value the door took 1.2 times as long at one atom.
#[inline(always)]
fn leg_block<T: AsSlice<u16>>(
    t: &mut [f64; 54],
    w: &[f64],
    f: FactorPlaces,
    cell: &Supercell<'_, T>,
    leg: Leg,
    atoms: Legs<usize>,
)
    requires { FactorsBelow (length w.now) f cell.now.np cell.now.ns × AtomsBelow cell.now.np atoms }
    ensures { Cols t.new 27
        (λ e. cmul
        (Def.element cell.now.ns (forces_of cell.now.forces) leg
        (split w.now f.legs.leg1 (cell.now.np * cell.now.ns)) (split w.now f.legs.leg2 (cell.now.np * cell.now.ns))
        atoms.leg0 atoms.leg1 atoms.leg2 e)
        (split w.now f.pre cell.now.np atoms.leg0)) }
{
    *t = real_to_reciprocal_elements(w, f.legs.leg1, f.legs.leg2, cell, leg, atoms);
    let z = get_split(w, f.pre, cell.np, atoms.leg0);
    change_each(t, |_, s| cmplx_mul(s, z));
}

// Writes the block of three atoms to t, anchored at each in turn and averaged: the second and the third leg take the first's place.
fn r0_average_block<T: AsSlice<u16>>(
    t: &mut [f64; 54],
    w: &[f64],
    f: FactorPlaces,
    cell: &Supercell<'_, T>,
    atoms: Legs<usize>,
)
    requires { FactorsBelow (length w.now) f cell.now.np cell.now.ns × AtomsBelow cell.now.np atoms }
    ensures { Cols t.new 27
        (λ e. Def.averaged_element cell.now.ns (forces_of cell.now.forces)
        (factors_in w.now f cell.now.np cell.now.ns)
        atoms.leg0 atoms.leg1 atoms.leg2 (e / 9) (e % 9 / 3) (e % 3)) }
{
    let mut second: [f64; 54] = [0.0; 54];
    let mut third: [f64; 54] = [0.0; 54];
    let one = [1, 0, 2];
    let two = [2, 1, 0];
    leg_block(t, w, f, cell, Leg::First, atoms);
    leg_block(
        &mut second,
        w,
        f.picked(one),
        cell,
        Leg::Second,
        atoms.picked(one),
    );
    leg_block(
        &mut third,
        w,
        f.picked(two),
        cell,
        Leg::Third,
        atoms.picked(two),
    );
    average(t, &second, &third);
}

// Writes the block of three atoms to t. Anchored plainly, it is the sums of a leg alone.
pub fn block<T: AsSlice<u16>>(
    t: &mut [f64; 54],
    w: &[f64],
    f: FactorPlaces,
    cell: &Supercell<'_, T>,
    anchoring: Anchoring,
    atoms: Legs<usize>,
)
    requires { FactorsBelow (length w.now) f cell.now.np cell.now.ns × AtomsBelow cell.now.np atoms }
    ensures { Cols t.new 27
        (λ e. Def.anchored cell.now.ns (forces_of cell.now.forces)
        (factors_in w.now f cell.now.np cell.now.ns)
        atoms.leg0 atoms.leg1 atoms.leg2 (e / 9) (e % 9 / 3) (e % 3) anchoring) }
{
    match anchoring {
        Anchoring::Plain => leg_block(t, w, f, cell, Leg::Alone, atoms),
        Anchoring::Averaged => r0_average_block(t, w, f, cell, atoms),
    }
}
