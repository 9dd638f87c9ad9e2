// Question 16: the forbidden sets one after another, and whether the image of each is blocked.
ghost use Rattle.std.specs.Prelude.{◌≡◌, true, List, [], ℕ, ◌+◌, ◌*◌, ◌<◌, length, drop};
ghost use Rattle.model.specs.Lists.{at, all, below};
ghost use Rattle.model.specs.ValueSets.{members};
ghost use Rattle.model.specs.Problem.{Problem};
ghost use Rattle.model.specs.Problem.{constraint_at};
ghost use Rattle.sheet_table.specs.Inner.Table.{Ready};
ghost use Rattle.sheet_table.specs.Inner.Forbidden.{Lent, Chosen, Walking, Choices, Beside, Held, keeps, all_blocked, doublings};

use arrays::{CONSTRAINTS, Numbers, Supports, VARIABLES};
use model::ValueSet;
use sheet_carried::carried::carried;
use sheet_carried::forbidden::{arity, clash, complement, scope_at, support};
use sheet_carried::sure::{surely_after, third_blocked};
use sheet_carried::two::pairs_blocked;
use sheet_table::moves::{TO, place};
use sheet_table::table::{initial, number};

// The values to try for the next variable x of constraint k: those of its initial set, less for the last variable those of its rows.
fn choices(
    numbers: &Numbers,
    supports: &Supports,
    k: usize,
    ahead: usize,
    key: usize,
    x: usize,
) -> ValueSet
    requires { (p : Problem) × (vs : List ℕ) × Ready p numbers.now supports.now × Chosen p vs k ahead key × (ahead ≡ 0 → ⊥) ×
        (x ≡ at (constraint_at p k).scope (length vs)) }
    ensures { (p : Problem) (vs codes : List ℕ) → Ready p numbers.now supports.now → Chosen p vs k ahead key → (ahead ≡ 0 → ⊥)
        → x ≡ at (constraint_at p k).scope (length vs) → Choices p vs codes k ahead result.bits }
{
    let set = initial(numbers, x);
    if ahead == 1 {
        set.common(complement(support(supports, 256 * k + key)))
    } else {
        set
    }
}

// True only where one variable of constraint k is ahead and each of its values makes a row: there is no choice to walk.
fn all_rows(numbers: &Numbers, supports: &Supports, k: usize, ahead: usize, key: usize) -> bool
    requires { (p : Problem) × (vs : List ℕ) × Ready p numbers.now supports.now × Chosen p vs k ahead key }
    ensures { result ≡ true → Held numbers.now supports.now k ahead key }
{
    if ahead != 1 {
        return false;
    }
    let x = scope_at(numbers, k, arity(numbers, k) - 1);
    choices(numbers, supports, k, 1, key, x).is_empty()
}

// Whether the pairs a and b are blocked with the image of (x, v) for each v of a set.
// `sure` has the values of y, the variable of the last image, that surely are.
fn all_blocked(
    numbers: &Numbers,
    supports: &Supports,
    codes: &[u8; 256],
    x: usize,
    set: ValueSet,
    a: usize,
    b: usize,
) -> bool
    requires { (p : Problem) × Beside p numbers.now supports.now codes.now x set.bits a b }
    ensures { (p : Problem) → Beside p numbers.now supports.now codes.now x set.bits a b → result ≡ all_blocked p
        codes.now x a b (members set.bits) }
{
    if a == 255 {
        return pairs_blocked(numbers, supports, codes, x, set, b);
    }
    if clash(a, b) {
        return true;
    }
    let mut y = 16;
    let mut sure = ValueSet::EMPTY;
    for v in set.members() {
        let e = place(codes, 16 * x + v as usize);
        sure = surely_after(numbers, supports, a, b, e / 16, y, sure);
        y = e / 16;
        if !third_blocked(numbers, supports, a, b, e, sure) {
            return false;
        }
    }
    true
}

// Whether the image of each forbidden set of constraint k with the values chosen so far is blocked: goes through the choices for the
// next variable, and for each of these through the choices for the variables after it; how many are `ahead` falls.
// The images of the last two pairs chosen are a and b.
fn walk(
    numbers: &Numbers,
    supports: &Supports,
    codes: &[u8; 256],
    moves: &[u8; 256],
    k: usize,
    ahead: usize,
    key: usize,
    a: usize,
    b: usize,
) -> bool
    requires { (p : Problem) × (vs : List ℕ) × (z : ℕ) × Walking p vs numbers.now supports.now codes.now moves.now k ahead key z a b ×
        (ahead ≡ 0 → ⊥) }
    ensures { (p : Problem) (vs : List ℕ) (z : ℕ) → Walking p vs numbers.now supports.now codes.now
        moves.now k ahead key z a b → (ahead ≡ 0 → ⊥) → result ≡ keeps p codes.now (constraint_at p k)
        (drop (length vs) (constraint_at p k).scope) vs }
{
    let x = scope_at(numbers, k, arity(numbers, k) - ahead);
    let set = choices(numbers, supports, k, ahead, key, x);
    if ahead == 1 {
        return all_blocked(numbers, supports, codes, x, set, a, b);
    }
    if carried(numbers, supports, moves, k, ahead, key, b) {
        return true;
    }
    for v in set.members() {
        let row = 16 * key + v as usize;
        if !all_rows(numbers, supports, k, ahead - 1, row) {
            if !walk(
                numbers,
                supports,
                codes,
                moves,
                k,
                ahead - 1,
                row,
                b,
                place(codes, 16 * x + v as usize),
            ) {
                return false;
            }
        }
    }
    true
}

// Whether the image of each forbidden set of each constraint is blocked.
pub fn constraints(
    numbers: &Numbers,
    supports: &Supports,
    codes: &[u8; 256],
    moves: &[u8; 256],
) -> bool
    requires { (p : Problem) × Lent p numbers.now supports.now codes.now moves.now }
    ensures { (p : Problem) → Lent p numbers.now supports.now codes.now moves.now → result ≡ all
        (λ c. keeps p codes.now c c.scope []) p.constraints }
{
    let c = number(numbers, CONSTRAINTS);
    for k in 0..c {
        if !walk(
            numbers,
            supports,
            codes,
            moves,
            k,
            arity(numbers, k),
            0,
            255,
            255,
        ) {
            return false;
        }
    }
    true
}

// Whether the images of any two pairs of variable x are blocked.
fn doubles(
    numbers: &Numbers,
    supports: &Supports,
    codes: &[u8; 256],
    moves: &[u8; 256],
    x: usize,
) -> bool
    requires { (p : Problem) × Lent p numbers.now supports.now codes.now moves.now × (x < p.variables) }
    ensures { (p : Problem) → Lent p numbers.now supports.now codes.now moves.now → x < p.variables
        → result ≡ doublings p codes.now x (members (at p.initial x)) }
{
    if place(moves, TO + x) != 15 {
        return true;
    }
    let mut values = initial(numbers, x).members();
    while let Some(v) = values.next() {
        let e = place(codes, 16 * x + v as usize);
        if !pairs_blocked(numbers, supports, codes, x, values.left, e) {
            return false;
        }
    }
    true
}

// Whether the images of any two pairs of one variable are blocked.
pub fn variables(
    numbers: &Numbers,
    supports: &Supports,
    codes: &[u8; 256],
    moves: &[u8; 256],
) -> bool
    requires { (p : Problem) × Lent p numbers.now supports.now codes.now moves.now }
    ensures { (p : Problem) → Lent p numbers.now supports.now codes.now moves.now → result ≡ all
        (λ x. doublings p codes.now x (members (at p.initial x))) (below p.variables) }
{
    let n = number(numbers, VARIABLES);
    for x in 0..n {
        if !doubles(numbers, supports, codes, moves, x) {
            return false;
        }
    }
    true
}
