// The constraints on two variables that are pruned by variable: the first on each two variables.
ghost use Rattle.std.specs.Prelude.{◌≡◌, not, ◌+◌, ◌-◌, ◌^◌, ◌≤◌, ◌<◌, eqb, length};
ghost use Rattle.std.specs.Int.Bits.{bit_and};
ghost use Rattle.model.specs.Lists.{at};
ghost use Rattle.model.specs.Problem.{Problem};
ghost use Rattle.model.specs.Inner.Filling.{Filled, Gathered};
ghost use Rattle.arrays.specs.Inner.Places.{VARIABLES, CONSTRAINTS, OTHERS};
ghost use Rattle.arrays.specs.Inner.Layout.{Numbers};
ghost use Rattle.arrays.specs.Inner.Tables.{is_by_rows};
ghost use Rattle.arrays_tables.specs.Inner.Steps.{LinkNumbers};

use crate::sets::one_if;
use arrays::{BY_ROWS, CONSTRAINTS, LINKED, Numbers, OTHERS, SCOPES, VARIABLES, arity};

// Whether constraint k is the first on its two variables: an arity of 2 and two variables are the number's first three bytes.
fn first(numbers: &Numbers, k: usize) -> bool
    requires { k < 32 }
    ensures { (p : Problem) → Numbers p numbers.now → k < length p.constraints → result ≡ is_by_rows p k }
{
    let w = numbers[SCOPES + k] % 16777216;
    arity(w) == 2
        && numbers[SCOPES..SCOPES + k]
            .iter()
            .all(|other| *other % 16777216 != w)
}

// The set of all such constraints.
fn all_first(numbers: &Numbers) -> u64
    requires { at numbers.now CONSTRAINTS ≤ 32 }
    ensures { (p : Problem) → Numbers p numbers.now → Gathered (is_by_rows p) (length p.constraints) result }
{
    let c = numbers[CONSTRAINTS] as usize;
    let mut all = 0u64;
    for k in 0..c {
        all |= one_if(first(numbers, k), k);
    }
    all
}

// The variables that a constraint of a set has in its scope.
fn variables_of(numbers: &Numbers, set: u64) -> u64
    requires { at numbers.now VARIABLES ≤ 12 }
    ensures { Gathered (λ x. not (eqb (bit_and (at numbers.now x) set) 0)) (at numbers.now VARIABLES) result }
{
    let n = numbers[VARIABLES] as usize;
    let mut all = 0u64;
    for x in 0..n {
        all |= one_if(numbers[x] & set != 0, x);
    }
    all
}

// For each variable the constraints outside a set that have it in their scope.
fn others(numbers: &mut Numbers, set: u64)
    ensures { Filled (λ x. OTHERS + x) (λ x r. r ≡ bit_and (at numbers.old x) ((2 ^ 64 - 1) - set)) 16 numbers.old
        numbers.new }
{
    for x in 0..16 {
        numbers[OTHERS + x] = numbers[x] & !set;
    }
}

// The linked variables, the constraints pruned by variable, and each variable's other constraints.
pub fn linked(numbers: &mut Numbers)
    requires { (at numbers.old VARIABLES ≤ 12) × (at numbers.old CONSTRAINTS ≤ 32) }
    ensures { LinkNumbers numbers.old numbers.new }
{
    let set = all_first(numbers);
    let variables = variables_of(numbers, set);
    numbers[LINKED] = variables;
    numbers[BY_ROWS] = set;
    others(numbers, set);
}
