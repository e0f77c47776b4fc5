// The root, the exponential, the sine, the cosine and the occupation, for programs in C and Rust.
#![tactic(auto)]

ghost use Rattle.std.specs.Prelude.{◌≡◌};
ghost use Rattle.phonon.specs.Root as Root;
ghost use Rattle.phonon.specs.Exp as Exp;
ghost use Rattle.phonon.specs.Trig.{sin_cos};
ghost use Rattle.phonon.specs.Funcs.{bose_einstein};

#[unsafe(no_mangle)]
pub extern "C" fn standins_root(x: f64) -> f64
    ensures { result ≡ Root.root x }
{
    common::root(x)
}

#[unsafe(no_mangle)]
pub extern "C" fn standins_exp(x: f64) -> f64
    ensures { result ≡ Exp.exp x }
{
    funcs::exp(x)
}

#[unsafe(no_mangle)]
pub extern "C" fn standins_sin(x: f64) -> f64
    ensures { result ≡ (sin_cos x).sin }
{
    funcs::sin_cos(x).sin
}

#[unsafe(no_mangle)]
pub extern "C" fn standins_cos(x: f64) -> f64
    ensures { result ≡ (sin_cos x).cos }
{
    funcs::sin_cos(x).cos
}

#[unsafe(no_mangle)]
pub extern "C" fn standins_bose_einstein(x: f64, temperature: f64) -> f64
    ensures { result ≡ bose_einstein x temperature }
{
    funcs::bose_einstein(x, temperature)
}
