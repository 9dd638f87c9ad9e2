// Unions of support sets of constraints on three variables: for each constraint, each half of eight values and each set of four.
ghost use Rattle.std.specs.Prelude.{◌≡◌, ◌+◌, ◌*◌, ◌/◌, ◌%◌, ◌≤◌, ◌<◌};
ghost use Rattle.model.specs.Lists.{at, choose};
ghost use Rattle.model.specs.ValueSets.{has};
ghost use Rattle.model.specs.Inner.Filling.{Filled};
ghost use Rattle.arrays.specs.Inner.Places.{UNIONS};
ghost use Rattle.arrays_tables.specs.Inner.Steps.{United, Unioned, Unions};

use crate::sets::contains;
use crate::words::words;
use arrays::{Numbers, SCOPES, Supports, UNIONS, arity};

// The number w, or 0 where i is not in the set m.
fn pick(w: u64, m: u64, i: usize) -> u64
    requires { i < 64 }
    ensures { result ≡ choose (has m i) w 0 }
{
    if contains(m, i) { w } else { 0 }
}

// The union of those that m has of four numbers from a base on.
fn union(words: &[u64; 16], base: usize, m: u64) -> u64
    requires { base + 4 ≤ 16 }
    ensures { United m (λ i. at words.now (base + i)) result }
{
    let low = pick(words[base], m, 0) | pick(words[base + 1], m, 1);
    let high = pick(words[base + 2], m, 2) | pick(words[base + 3], m, 3);
    low | high
}

// The 64 unions of constraint k, sixteen for each four of its numbers.
fn unite(supports: &Supports, numbers: &mut Numbers, k: usize)
    requires { k < 32 }
    ensures { Filled (λ c. UNIONS + 64 * k + c) (λ c. Unioned supports.now k (c / 16) (c % 16)) 64 numbers.old
        numbers.new }
{
    let mut made = [0u64; 16];
    words(supports, k, &mut made);
    for c in 0..64 {
        numbers[UNIONS + 64 * k + c] = union(&made, 4 * (c / 16), (c % 16) as u64);
    }
}

// The unions of the constraints on three variables, and how many of these there are.
pub fn unions(supports: &Supports, numbers: &mut Numbers) -> usize
    ensures { Unions supports.now 32 numbers.old numbers.new result }
{
    let mut some = 0;
    for k in 0..32 {
        if arity(numbers[SCOPES + k]) == 3 {
            unite(supports, numbers, k);
            some += 1;
        }
    }
    some
}
