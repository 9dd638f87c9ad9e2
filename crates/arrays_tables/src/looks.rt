// The constraints on three variables whose first two are settled at a depth: one look-up for the third.
ghost use Rattle.std.specs.Prelude.{◌+◌, ◌≤◌};
ghost use Rattle.model.specs.Lists.{at};
ghost use Rattle.model.specs.Inner.Filling.{Filled};
ghost use Rattle.arrays.specs.Inner.Places.{CONSTRAINTS, LOOKS};
ghost use Rattle.arrays_tables.specs.Inner.Steps.{LookScopes};

use crate::sets::one_if;
use arrays::{CONSTRAINTS, LOOKS, Numbers, SCOPES, VALUES, arity, scope_at};

// Those whose second variable is the last of the first k: an arity of 3 and that variable in one number.
// None where there are fewer than nine values: there the numbers of lanes are faster.
fn at_depth(numbers: &Numbers, k: usize) -> u64
    requires { (at numbers.now CONSTRAINTS ≤ 32) × (k ≤ 12) }
    ensures { LookScopes numbers.now k result }
{
    if numbers[VALUES] < 9 {
        return 0;
    }
    let c = numbers[CONSTRAINTS] as usize;
    let key = 3 + 256 * k;
    let mut all = 0u64;
    for i in 0..c {
        let w = numbers[SCOPES + i];
        all |= one_if(arity(w) + 256 * (scope_at(w, 1) + 1) == key, i);
    }
    all
}

// A set for each of thirteen depths.
pub fn looks(numbers: &mut Numbers)
    requires { at numbers.old CONSTRAINTS ≤ 32 }
    ensures { Filled (λ k. LOOKS + k) (LookScopes numbers.old) 13 numbers.old numbers.new }
{
    for k in 0..13 {
        numbers[LOOKS + k] = at_depth(numbers, k);
    }
}
