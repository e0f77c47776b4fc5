// funcs.rs: the occupation of a phonon. Beside it document 01's exponential, sine and cosine: what the library's return is promised nowhere.
#![tactic(auto)]

ghost use Rattle.std.specs.Prelude.{◌≡◌, true, false, ◌<◌, ◌≤◌, pos, map};
ghost use mathlib.Core.List.{[], ◌∷◌, foldl};
ghost use Rattle.std.specs.Float.{fin};
ghost use Rattle.phonon.specs.Number.{◌⊖◌, ◌⊗◌, ◌⊘◌, f1, at, float, whole};
ghost use Rattle.phonon.specs.Exp as Exp;
ghost use Rattle.phonon.specs.Trig as Trig;
ghost use Rattle.phonon.specs.Funcs.{bose_einstein};
ghost use Rattle.floats.specs.Size.{Within};
ghost use Rattle.funcs.specs.Reducible.{reducible};

use phonon::{Legs, SinCos};

// n, for n = 18 down to 1.
const EXP_DIVISORS: [f64; 18] = [
    18.0, 17.0, 16.0, 15.0, 14.0, 13.0, 12.0, 11.0, 10.0, 9.0, 8.0, 7.0, 6.0, 5.0, 4.0, 3.0, 2.0,
    1.0,
];

// 3FF71547652B82FE
const LOG2_E: f64 = 1.4426950408889634;

// 3FE62E42FEE00000
const LN_2_HIGH: f64 = 0.6931471803691238;

// 3DEA39EF35793C76
const LN_2_LOW: f64 = 1.9082149292705877e-10;

// 2 ^ k, by its bit pattern.
fn power_of_two(k: u64) -> f64
    requires { k ≤ 1023 }
    ensures { result ≡ fin false 1 (pos k) }
{
    f64::from_bits((k + 1023) * 0x10_0000_0000_0000)
}

// Neither above 709 nor below 0, and no NaN.
#[tactic(auto, unfolding(crate::specs::Reducible::reducible))]
fn is_reducible(x: f64) -> bool
    ensures { result ≡ reducible x }
{
    if x > 709.0 { false } else { x >= 0.0 }
}

// 2 ^ 52: added to a smaller whole number, it leaves that number in the last 52 bits.
const TWO_52: f64 = 4503599627370496.0;

// What is left of x after k times ln 2, and 2 ^ k.
#[derive(Clone, Copy)]
struct Reduced {
    remainder: f64,
    power: f64,
}

fn reduce(x: f64) -> Reduced
    requires { reducible x ≡ true }
    ensures { (result.remainder ≡ Exp.remainder x (whole (Exp.count x))) × (result.power ≡ fin false 1 (pos (Exp.count x))) }
{
    let whole = floor_parts(x * LOG2_E).whole;
    Reduced {
        remainder: (x - whole * LN_2_HIGH) - whole * LN_2_LOW,
        power: power_of_two(f64::to_bits(whole + TWO_52) % 0x10_0000_0000_0000),
    }
}

// Two numbers, each in a register of its own. As an array they are stored one by one and read at once as a vector, which waits for both stores.
#[derive(Clone, Copy)]
struct Two {
    one: f64,
    two: f64,
}

// Of r and of s: p = 1, then p = 1 + p * (r / n) for n = 18 down to 1. Both divisions are one instruction. The table is read in the
// loop, which is laid out straight for it: then each divisor is a known number, and 16, 8, 4, 2 and 1 take a product for a division.
fn exp_series_two(r: f64, s: f64) -> Two
    ensures { (result.one ≡ Exp.exp_series r) × (result.two ≡ Exp.exp_series s) }
{
    let mut p = 1.0;
    let mut q = 1.0;
    for i in 0..18 {
        let d = EXP_DIVISORS[i];
        p = 1.0 + p * (r / d);
        q = 1.0 + q * (s / d);
    }
    Two { one: p, two: q }
}

// The exponential of x. Above 709 it is infinity; below 0, and of a NaN, it is a NaN. Its first case is that of exp_two, which
// calls it for each where one of two is out of range; of two series alike the compiler drops one.
pub fn exp(x: f64) -> f64
    ensures { result ≡ Exp.exp x }
{
    if is_reducible(x) {
        let a = reduce(x);
        let p = exp_series_two(a.remainder, a.remainder);
        return p.one * a.power;
    }
    if x > 709.0 {
        return f64::INFINITY;
    }
    f64::NAN
}

// The exponentials of two numbers, side by side.
fn exp_two(x: f64, y: f64) -> Two
    ensures { (result.one ≡ Exp.exp x) × (result.two ≡ Exp.exp y) }
{
    if is_reducible(x) & is_reducible(y) {
        let a = reduce(x);
        let b = reduce(y);
        let p = exp_series_two(a.remainder, b.remainder);
        return Two {
            one: p.one * a.power,
            two: p.two * b.power,
        };
    }
    Two {
        one: exp(x),
        two: exp(y),
    }
}

// The exponentials of N numbers, two at a time. It is laid into its callers, so that the numbers come in registers.
#[inline(always)]
pub fn exps<const N: usize>(x: [f64; N]) -> [f64; N]
    ensures { result ≡ map Exp.exp x.entry }
{
    let mut e = x;
    for i in 0..N / 2 {
        let p = exp_two(x[2 * i], x[2 * i + 1]);
        e[2 * i] = p.one;
        e[2 * i + 1] = p.two;
    }
    if N % 2 == 1 {
        e[N - 1] = exp(x[N - 1]);
    }
    e
}

// 2n * (2n + 1), for n = 9 down to 1.
const SINE_DIVISORS: [f64; 9] = [342.0, 272.0, 210.0, 156.0, 110.0, 72.0, 42.0, 20.0, 6.0];

// (2n - 1) * 2n, for n = 9 down to 1.
const COSINE_DIVISORS: [f64; 9] = [306.0, 240.0, 182.0, 132.0, 90.0, 56.0, 30.0, 12.0, 2.0];

// 3FE45F306DC9C883
const TWO_OVER_PI: f64 = 0.6366197723675814;

// 3FF921FB54400000
const HALF_PI_HIGH: f64 = 1.5707963267341256;

// 3DD0B4611A600000
const HALF_PI_MIDDLE: f64 = 6.077100506303966e-11;

// 3BA3198A2E037073
const HALF_PI_LOW: f64 = 2.0222662487959506e-21;

// Both series of z, the sine's and then the cosine's: p = 1, then p = 1 - p * (z / d) for each divisor d in turn. Side by side
// they take one vector division a term.
fn both_series(z: f64) -> [f64; 2]
    ensures { result ≡ Trig.sine_series z ∷ Trig.cosine_series z ∷ [] }
{
    let mut s = 1.0;
    let mut c = 1.0;
    for i in 0..9 {
        s = 1.0 - s * (z / SINE_DIVISORS[i]);
        c = 1.0 - c * (z / COSINE_DIVISORS[i]);
    }
    [s, c]
}

// 1.5 * 2 ^ 52. From 2 ^ 52 to 2 ^ 53 the floats are the whole numbers.
const SHIFT: f64 = 6755399441055744.0;

// The greatest whole number not above y, as a float, and that number mod 4.
#[derive(Clone, Copy)]
struct Floored {
    whole: f64,
    quadrant: u64,
}

// Added to SHIFT, y is rounded to one of the two whole numbers around it; where that is the upper one, the floor is one less.
// SHIFT is a multiple of 4, so the last digits of the sum are the number's mod 4. The library's floor keeps the sign of -0.0, and tells no quadrant.
fn floor_parts(y: f64) -> Floored
    requires { Within 1048577 y }
    ensures { (result.whole ≡ float (Trig.floor y)) × (result.quadrant ≡ Trig.quadrant (Trig.floor y)) }
{
    let shifted = y + SHIFT;
    let near = shifted - SHIFT;
    let digits = f64::to_bits(shifted) % 4;
    if y < near {
        return Floored {
            whole: near - 1.0,
            quadrant: (digits + 3) % 4,
        };
    }
    Floored {
        whole: near,
        quadrant: digits,
    }
}

// The sine and the cosine of r and q quarter turns more, from r and its two series. Read by the parity of q, both series stay in
// memory and are worked as one vector.
// q stays the number that the float's last digits are: an enum would take a match to make it, and a second for its parity.
fn turned(q: u64, r: f64, p: [f64; 2]) -> SinCos
    requires { q < 4 }
    ensures { result ≡ Trig.turned q (r ⊗ at p 0) (at p 1) }
{
    let odd = (q % 2) as usize;
    let s = p[odd];
    let c = p[1 - odd];
    match q {
        0 => SinCos { sin: r * s, cos: c },
        1 => SinCos {
            sin: s,
            cos: -(r * c),
        },
        2 => SinCos {
            sin: -(r * s),
            cos: -c,
        },
        _ => SinCos {
            sin: -s,
            cos: r * c,
        },
    }
}

// The domain of the sine and the cosine; no NaN is in it.
#[inline(always)]
pub fn in_domain(x: f64) -> bool
    ensures { result ≡ Trig.in_domain x }
{
    (x >= -1048576.0) & (x <= 1048576.0)
}

// What is left of x after the nearest number of quarter turns, and that number mod 4.
#[derive(Clone, Copy)]
struct Nearest {
    rest: f64,
    quadrant: u64,
}

fn quartered(x: f64) -> Nearest
    requires { Trig.in_domain x ≡ true }
    ensures { (result.rest ≡ Trig.reduced x (float (Trig.floor (Trig.quarters x))))
        × (result.quadrant ≡ Trig.quadrant (Trig.floor (Trig.quarters x)))
        × (result.quadrant < 4) }
{
    let f = floor_parts(x * TWO_OVER_PI + 0.5);
    let k = f.whole;
    Nearest {
        rest: ((x - k * HALF_PI_HIGH) - k * HALF_PI_MIDDLE) - k * HALF_PI_LOW,
        quadrant: f.quadrant,
    }
}

// The sine and the cosine of x. Beyond 1048576 in size, and of a NaN, both are a NaN.
pub fn sin_cos(x: f64) -> SinCos
    ensures { result ≡ Trig.sin_cos x }
{
    if in_domain(x) {
        let a = quartered(x);
        return turned(a.quadrant, a.rest, both_series(a.rest * a.rest));
    }
    SinCos {
        sin: f64::NAN,
        cos: f64::NAN,
    }
}

// ---- three numbers at a time: their series do not wait for one another. One function over any count took 74 ns for three numbers, where this
// takes 68.

// Both series of three numbers, the sine's and then the cosine's of each. The divisors are lent: a constant array that is read in
// a loop is laid out anew in every turn.
fn three_series(x: f64, y: f64, z: f64, sines: &[f64; 9], cosines: &[f64; 9]) -> [f64; 6]
    ensures { result ≡ foldl (λ p d. f1 ⊖ p ⊗ (x ⊘ d)) f1 sines.now
        ∷ foldl (λ p d. f1 ⊖ p ⊗ (x ⊘ d)) f1 cosines.now
        ∷ foldl (λ p d. f1 ⊖ p ⊗ (y ⊘ d)) f1 sines.now
        ∷ foldl (λ p d. f1 ⊖ p ⊗ (y ⊘ d)) f1 cosines.now
        ∷ foldl (λ p d. f1 ⊖ p ⊗ (z ⊘ d)) f1 sines.now
        ∷ foldl (λ p d. f1 ⊖ p ⊗ (z ⊘ d)) f1 cosines.now
        ∷ [] }
{
    let mut s = 1.0;
    let mut c = 1.0;
    let mut t = 1.0;
    let mut d = 1.0;
    let mut u = 1.0;
    let mut e = 1.0;
    for i in 0..9 {
        let a = sines[i];
        let b = cosines[i];
        s = 1.0 - s * (x / a);
        c = 1.0 - c * (x / b);
        t = 1.0 - t * (y / a);
        d = 1.0 - d * (y / b);
        u = 1.0 - u * (z / a);
        e = 1.0 - e * (z / b);
    }
    [s, c, t, d, u, e]
}

// The sines and the cosines of three numbers.
pub fn sin_cos_three(x: Legs<f64>) -> Legs<SinCos>
    ensures { (result.leg0 ≡ Trig.sin_cos x.leg0) × (result.leg1 ≡ Trig.sin_cos x.leg1) × (result.leg2 ≡ Trig.sin_cos x.leg2) }
{
    if in_domain(x.leg0) & in_domain(x.leg1) & in_domain(x.leg2) {
        let a = quartered(x.leg0);
        let b = quartered(x.leg1);
        let c = quartered(x.leg2);
        let p = three_series(
            a.rest * a.rest,
            b.rest * b.rest,
            c.rest * c.rest,
            &SINE_DIVISORS,
            &COSINE_DIVISORS,
        );
        return Legs {
            leg0: turned(a.quadrant, a.rest, [p[0], p[1]]),
            leg1: turned(b.quadrant, b.rest, [p[2], p[3]]),
            leg2: turned(c.quadrant, c.rest, [p[4], p[5]]),
        };
    }
    x.map(|y| sin_cos(y))
}

// The occupations of N frequencies, side by side.
#[inline(always)]
pub fn bose_einsteins<const N: usize>(x: [f64; N], temperature: f64) -> [f64; N]
    ensures { result ≡ map (λ y. bose_einstein y temperature) x.entry }
{
    let mut ratios = x;
    for y in ratios.iter_mut() {
        *y = *y / temperature;
    }
    let mut n = exps(ratios);
    for y in n.iter_mut() {
        *y = 1.0 / (*y - 1.0);
    }
    n
}

// The occupation of a frequency x: 1 / (exp(x / temperature) - 1).
pub fn bose_einstein(x: f64, temperature: f64) -> f64
    ensures { result ≡ bose_einstein x temperature }
{
    let [n] = bose_einsteins([x], temperature);
    n
}
