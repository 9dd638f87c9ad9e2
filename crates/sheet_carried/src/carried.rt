// The last two variables of a constraint on three: whether rows of a constraint on the images come from rows of it. Where all of them
// do, the image of what is no row is no row either, for all choices for the two variables at once.
ghost use Rattle.std.specs.Prelude.{◌≡◌, true, List, ℕ, ◌+◌, ◌*◌, ◌^◌, ◌<◌, length, drop, T};
ghost use Rattle.model.specs.Lists.{at};
ghost use Rattle.model.specs.ValueSets.{has};
ghost use Rattle.model.specs.Problem.{Problem};
ghost use Rattle.model.specs.Problem.{constraint_at};
ghost use Rattle.arrays.specs.Inner.Places.{SUPPORTS};
ghost use Rattle.sheet_table.specs.Inner.Table.{Framed};
ghost use Rattle.sheet_table.specs.Inner.Forbidden.{Across, FromRows, SetFrom, Walking, keeps};

use super::forbidden::{arity, complement, scope_at, support};
use super::sure::refusing;
use super::turned::turned;
use arrays::{Numbers, Supports};
use model::ValueSet;
use sheet_table::moves::{TO, place};
use sheet_table::table::{initial, number};

// Whether the pairs of variable z with the values of a set come from values of `rows`.
fn all_from(moves: &[u8; 256], z: usize, set: ValueSet, rows: ValueSet) -> bool
    requires { (z < 16) × (set.bits < 2 ^ 16) × ((i : ℕ) → at moves.now i < 16) }
    ensures { result ≡ true → (u : ℕ) → T (has set.bits u) → T (has rows.bits (at moves.now (16 * z + u))) }
{
    for u in set.members() {
        if !rows.contains(place(moves, 16 * z + u as usize) as u16) {
            return false;
        }
    }
    true
}

// Whether the rows of constraint m with the pair a, a pair of y and a pair of z come from values of the sets from `from` on.
fn from_rows(
    numbers: &Numbers,
    supports: &Supports,
    moves: &[u8; 256],
    from: usize,
    m: usize,
    a: usize,
    y: usize,
    z: usize,
) -> bool
    requires { ((p : Problem) × Across p numbers.now supports.now m a y z) × (from + 15 < SUPPORTS) × ((i : ℕ) → at moves.now i < 16) }
    ensures { result ≡ true → (p : Problem) → Across p numbers.now supports.now m a y z → (v : ℕ) → T (has (at p.initial y) v)
        → FromRows p supports.now moves.now from a (16 * y + v) z }
{
    let last = initial(numbers, z);
    for v in initial(numbers, y).members() {
        let e = 16 * y + v as usize;
        let free = last.common(complement(refusing(supports, m, a, e, z)));
        if !all_from(moves, z, free, support(supports, from + place(moves, e))) {
            return false;
        }
    }
    true
}

// Whether the values of z in the set at base + step * v come, for each value v of y, from values of the sets from `from` on.
fn sets_from(
    numbers: &Numbers,
    supports: &Supports,
    moves: &[u8; 256],
    from: usize,
    base: usize,
    step: usize,
    y: usize,
    z: usize,
) -> bool
    requires { ((p : Problem) × Framed p numbers.now × (y < p.variables) × (z < p.variables)) × (from + 15 < SUPPORTS) × (base + 15 * step < SUPPORTS)
        × ((i : ℕ) → at moves.now i < 16) }
    ensures { result ≡ true → (p : Problem) → Framed p numbers.now → y < p.variables → z < p.variables → (v : ℕ) → T
        (has (at p.initial y) v) → SetFrom p supports.now moves.now from (base + step * v) (16 * y + v) z }
{
    let last = initial(numbers, z);
    for v in initial(numbers, y).members() {
        let v = v as usize;
        let free = last.common(support(supports, base + step * v));
        let rows = support(supports, from + place(moves, 16 * y + v));
        if !all_from(moves, z, free, rows) {
            return false;
        }
    }
    true
}

// The same as `from_rows`, by the sets of constraint m where z is the last of the three variables.
fn rows_from(
    numbers: &Numbers,
    supports: &Supports,
    moves: &[u8; 256],
    from: usize,
    m: usize,
    a: usize,
    y: usize,
    z: usize,
) -> bool
    requires { ((p : Problem) × Across p numbers.now supports.now m a y z) × (from + 15 < SUPPORTS) × ((i : ℕ) → at moves.now i < 16) }
    ensures { result ≡ true → (p : Problem) → Across p numbers.now supports.now m a y z → (v : ℕ) → T (has (at p.initial y) v)
        → FromRows p supports.now moves.now from a (16 * y + v) z }
{
    if z <= y {
        return from_rows(numbers, supports, moves, from, m, a, y, z);
    }
    if z <= a / 16 {
        return from_rows(numbers, supports, moves, from, m, a, y, z);
    }
    if a / 16 < y {
        let base = 256 * m + 16 * (a % 16);
        return sets_from(numbers, supports, moves, from, base, 1, y, z);
    }
    if y < a / 16 {
        let base = 256 * m + a % 16;
        return sets_from(numbers, supports, moves, from, base, 16, y, z);
    }
    from_rows(numbers, supports, moves, from, m, a, y, z)
}

// A constraint of a set, k if it is one of them.
pub fn pick(set: usize, k: usize) -> usize
    requires { (k < 64) × (set ≡ 0 → ⊥) }
    ensures { T (has set result) }
{
    if (set >> k) & 1 == 1 {
        return k;
    }
    usize::trailing_zeros(set) as usize
}

// True only where, for all choices for the last two or all three variables of constraint k, they make a row or the image is blocked.
// Where two are left, the key is the value of the first, whose pair has the image a.
pub fn carried(
    numbers: &Numbers,
    supports: &Supports,
    moves: &[u8; 256],
    k: usize,
    ahead: usize,
    key: usize,
    a: usize,
) -> bool
    requires { (p : Problem) × (vs codes : List ℕ) × (z w : ℕ) × Walking p vs numbers.now supports.now codes moves.now k ahead key z w a }
    ensures { result ≡ true → (p : Problem) (vs codes : List ℕ) (z w : ℕ) → Walking p vs numbers.now supports.now codes
        moves.now k ahead key z w a → true ≡ keeps p codes (constraint_at p k) (drop (length vs) (constraint_at p k).scope) vs }
{
    if ahead == 3 {
        return turned(numbers, supports, moves, k);
    }
    if ahead != 2 {
        return false;
    }
    if arity(numbers, k) != 3 {
        return false;
    }
    let y = place(moves, TO + scope_at(numbers, k, 1));
    let z = place(moves, TO + scope_at(numbers, k, 2));
    let set = number(numbers, a / 16) & number(numbers, y) & number(numbers, z);
    if set == 0 {
        return false;
    }
    let m = pick(set, k);
    rows_from(numbers, supports, moves, 256 * k + 16 * key, m, a, y, z)
}
