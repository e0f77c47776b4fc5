// The contraction of a matrix of n rows and columns with a vector: number c is the dot product of column c and the vector.
ghost use Rattle.std.specs.Prelude.{◌≡◌, ◌+◌, ◌*◌, ◌≤◌, length};
ghost use Rattle.planes.specs.Split.{WroteSplit};
ghost use Rattle.reciprocal_to_normal.specs.Places.{Below, column_dot};

use crate::columns::{Sums, dot_columns};
use crate::places::{Planes, Vector};

// Six columns at a time. Where fewer are left, the last six, of which some are written again.
fn contract_long_row(w: &mut [f64], ro: usize, m: Planes, v: Vector, n: usize)
    requires { (6 ≤ n) × (ro + 2 * n ≤ length w.old) × Below ro n m v }
    ensures { WroteSplit w.old w.new ro n n (column_dot w.old m v n) }
{
    for i in 0..n.div_ceil(6) {
        let j = usize::min(6 * i, n - 6);
        let t: Sums<6> = dot_columns(w, m, v, n, j);
        t.put(w, ro + j, n);
    }
}

// One or two atoms: all N columns at once. Quicker than contract_long_row, since the count of rows is known: the compiler lays
// the loops out straight.
fn contract_known_row<const N: usize>(w: &mut [f64], ro: usize, m: Planes, v: Vector)
    requires { (ro + 2 * N ≤ length w.old) × Below ro N m v }
    ensures { WroteSplit w.old w.new ro N N (column_dot w.old m v N) }
{
    let t: Sums<N> = dot_columns(w, m, v, N, 0);
    t.put(w, ro, N);
}

// At ro, the contraction of the matrix m, of 3 * np columns, with the vector v.
pub fn contract_row(w: &mut [f64], ro: usize, m: Planes, v: Vector, np: usize)
    requires { (1 ≤ np) × (ro + 2 * (3 * np) ≤ length w.old) × Below ro (3 * np) m v }
    ensures { WroteSplit w.old w.new ro (3 * np) (3 * np) (column_dot w.old m v (3 * np)) }
{
    match np {
        1 => contract_known_row::<3>(w, ro, m, v),
        2 => contract_known_row::<6>(w, ro, m, v),
        _ => contract_long_row(w, ro, m, v, 3 * np),
    }
}
