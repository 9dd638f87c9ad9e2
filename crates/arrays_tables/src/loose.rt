// Loose variables: no value of another variable is refused by two of their values.
ghost use Rattle.std.specs.Prelude.{◌≡◌, true, ◌≤◌, ◌<◌};
ghost use Rattle.model.specs.Lists.{at};
ghost use Rattle.arrays.specs.Inner.Places.{VARIABLES, SMALLER};
ghost use Rattle.arrays_tables.specs.Inner.Steps.{Refused, Twice, LooseTo, LooseSet};

use crate::sets::{initial, one_if, outside};
use arrays::{Numbers, Tables, VARIABLES};
use model::ValueSet;

// What value v refuses, if it is in the set m.
fn refused(tables: &Tables, m: ValueSet, from: usize, v: u16) -> ValueSet
    requires { (from < SMALLER) × (v < 16) }
    ensures { Refused tables.now m.bits from v result.bits }
{
    if !m.contains(v) {
        return ValueSet::EMPTY;
    }
    outside(ValueSet {
        bits: tables[from + 16 * (v as usize)],
    })
}

// What two values of m refuse.
fn twice(tables: &Tables, m: ValueSet, from: usize) -> ValueSet
    requires { from < SMALLER }
    ensures { Twice tables.now m.bits from 16 result.bits }
{
    let mut once = ValueSet::EMPTY;
    let mut all = ValueSet::EMPTY;
    for v in 0..16 {
        let r = refused(tables, m, from, v);
        all = all.union(once.common(r));
        once = once.union(r);
    }
    all
}

// No value of a variable's initial set is refused by two values of x.
fn is_loose(numbers: &Numbers, tables: &Tables, x: usize) -> bool
    requires { (x < 12) × (at numbers.now VARIABLES ≤ 12) }
    ensures { result ≡ true → LooseTo numbers.now tables.now x (at numbers.now VARIABLES) }
{
    let n = numbers[VARIABLES] as usize;
    let m = initial(numbers, x);
    for y in 0..n {
        let lost = twice(tables, m, 256 * x + y).common(initial(numbers, y));
        if !lost.is_empty() {
            return false;
        }
    }
    true
}

// The set of the loose variables.
pub fn loose(numbers: &Numbers, tables: &Tables) -> u64
    requires { at numbers.now VARIABLES ≤ 12 }
    ensures { LooseSet numbers.now tables.now (at numbers.now VARIABLES) result }
{
    let n = numbers[VARIABLES] as usize;
    let mut all = 0u64;
    for x in 0..n {
        all |= one_if(is_loose(numbers, tables, x), x);
    }
    all
}
