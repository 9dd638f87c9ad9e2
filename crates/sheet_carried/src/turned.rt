// A constraint on three variables whose first goes to the last of a constraint on the images: whether the rows of that come from its rows.
// Where all of them do, the image of what is no row is no row either, for all choices at once.
ghost use Rattle.std.specs.Prelude.{◌≡◌, true, List, ℕ, ◌+◌, ◌*◌, ◌^◌, ◌<◌};
ghost use Rattle.model.specs.Problem.{Problem};
ghost use Rattle.arrays.specs.Inner.Places.{SUPPORTS};
ghost use Rattle.sheet_table.specs.Inner.Forbidden.{Firsts, Kept, Seconds, Small, Thirds, Three, Two, Whole, Wholes};

use super::carried::pick;
use super::forbidden::{scope_at, support};
use arrays::{Numbers, Supports};
use model::ValueSet;
use sheet_table::moves::{TO, place};
use sheet_table::table::{initial, number};

// Whether the pairs of variable x with the values of a set come from values whose sets, every 16th from `from` on, have w.
fn firsts_from(
    supports: &Supports,
    moves: &[u8; 256],
    from: usize,
    x: usize,
    set: ValueSet,
    w: usize,
) -> bool
    requires { (x < 16) × (set.bits < 2 ^ 16) × (w < 16) × (from + 240 < SUPPORTS) × Small moves.now }
    ensures { result ≡ true → Firsts supports.now moves.now from x set.bits w }
{
    for t in set.members() {
        let v = place(moves, 16 * x + t as usize);
        if !support(supports, from + 16 * v).contains(w as u16) {
            return false;
        }
    }
    true
}

// The same for each value u of z, with the set of x at base + step * u and the value that u comes from.
fn thirds_from(
    numbers: &Numbers,
    supports: &Supports,
    moves: &[u8; 256],
    from: usize,
    base: usize,
    step: usize,
    x: usize,
    z: usize,
) -> bool
    requires { ((p : Problem) × Two p numbers.now x z) × (from + 240 < SUPPORTS) × (base + 15 * step < SUPPORTS) × Small moves.now }
    ensures { result ≡ true → Thirds numbers.now supports.now moves.now from base step x z }
{
    let first = initial(numbers, x);
    for u in initial(numbers, z).members() {
        let u = u as usize;
        let set = first.common(support(supports, base + step * u));
        if !firsts_from(supports, moves, from, x, set, place(moves, 16 * z + u)) {
            return false;
        }
    }
    true
}

// The same for each value v of y, for constraint k: the sets of x at base + step * v + third * u.
fn seconds_from(
    numbers: &Numbers,
    supports: &Supports,
    moves: &[u8; 256],
    k: usize,
    base: usize,
    step: usize,
    third: usize,
    x: usize,
    y: usize,
    z: usize,
) -> bool
    requires { ((p : Problem) × Two p numbers.now x z × (y < p.variables)) × (k < 32) × (base + 15 * step + 15 * third < SUPPORTS) × Small moves.now }
    ensures { result ≡ true → Seconds numbers.now supports.now moves.now k base step third x y z }
{
    for v in initial(numbers, y).members() {
        let v = v as usize;
        let from = 256 * k + place(moves, 16 * y + v);
        if !thirds_from(numbers, supports, moves, from, base + step * v, third, x, z) {
            return false;
        }
    }
    true
}

// Whether the rows of constraint m, on the images x, y and z of the variables of constraint k, come from rows of k. The last is x.
fn rows_from(
    numbers: &Numbers,
    supports: &Supports,
    moves: &[u8; 256],
    k: usize,
    m: usize,
    x: usize,
    y: usize,
    z: usize,
) -> bool
    requires { ((p : Problem) × Three p numbers.now supports.now m x y z) × (k < 32) × (y < x) × (z < x) × Small moves.now }
    ensures { result ≡ true → Wholes numbers.now supports.now moves.now k m x y z }
{
    if y < z {
        return seconds_from(numbers, supports, moves, k, 256 * m, 16, 1, x, y, z);
    }
    if z < y {
        return seconds_from(numbers, supports, moves, k, 256 * m, 1, 16, x, y, z);
    }
    false
}

// True only where, for all choices for the variables of constraint k on three, they make a row or the image is blocked.
pub fn turned(numbers: &Numbers, supports: &Supports, moves: &[u8; 256], k: usize) -> bool
    requires { (p : Problem) × (codes : List ℕ) × Whole p numbers.now supports.now codes moves.now k }
    ensures { result ≡ true → Kept numbers.now supports.now moves.now k }
{
    let x = place(moves, TO + scope_at(numbers, k, 0));
    let y = place(moves, TO + scope_at(numbers, k, 1));
    let z = place(moves, TO + scope_at(numbers, k, 2));
    if x <= y {
        return false;
    }
    if x <= z {
        return false;
    }
    let set = number(numbers, x) & number(numbers, y) & number(numbers, z);
    if set == 0 {
        return false;
    }
    rows_from(numbers, supports, moves, k, pick(set, k), x, y, z)
}
