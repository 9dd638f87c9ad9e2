// Sets of variables and of constraints, as numbers of 64 bits: the member test, and sets of one.
// Sets of values: the initial set of a variable, and what a set lacks.
ghost use Rattle.std.specs.Prelude.{◌≡◌, not, ℕ, ◌<◌};
ghost use Rattle.model.specs.ValueSets.{has, one_if};
ghost use Rattle.arrays_tables.specs.Inner.Steps.{initial_of};

use arrays::{INITIAL, Numbers};
use model::ValueSet;

pub fn contains(s: u64, v: usize) -> bool
    requires { v < 64 }
    ensures { result ≡ has s v }
{
    (s >> v) & 1 == 1
}

// The set of v, or the empty set.
pub fn one_if(b: bool, v: usize) -> u64
    requires { v < 64 }
    ensures { result ≡ one_if b v }
{
    if b { 1u64 << v } else { 0 }
}

// The initial set of variable x.
pub fn initial(numbers: &Numbers, x: usize) -> ValueSet
    requires { x < 16 }
    ensures { result.bits ≡ initial_of numbers.now x }
{
    ValueSet {
        bits: (numbers[INITIAL + x] % 65536) as u16,
    }
}

// The values that are not in the set.
pub fn outside(s: ValueSet) -> ValueSet
    ensures { (v : ℕ) → v < 16 → has result.bits v ≡ not (has s.bits v) }
{
    ValueSet { bits: !s.bits }
}
