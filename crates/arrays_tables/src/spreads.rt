// Numbers of eight lanes, where they are read: for sets of values below 8, if some constraint is on three variables.
ghost use Rattle.std.specs.Prelude.{◌+◌};
ghost use Rattle.model.specs.Inner.Filling.{Filled};
ghost use Rattle.arrays.specs.Inner.Places.{SPREAD};
ghost use Rattle.arrays_tables.specs.Inner.Steps.{Spread, Worded};

use crate::unions::unions;
use arrays::{Numbers, SPREAD, Supports, VALUES};

// All of the lanes of each set. Value v + 1 of a set is value v of its half: its lanes are those of its half moved by one, and its first lane.
fn spreads(numbers: &mut Numbers)
    ensures { Filled (λ b. SPREAD + b) Spread 256 numbers.old numbers.new }
{
    numbers[SPREAD] = 0;
    numbers[SPREAD + 1] = 255;
    for h in 1..128 {
        let moved = 256 * numbers[SPREAD + h];
        numbers[SPREAD + 2 * h] = moved;
        numbers[SPREAD + 2 * h + 1] = moved + 255;
    }
}

// The unions, and the lanes of each set where there is one.
pub fn by_lanes(supports: &Supports, numbers: &mut Numbers)
    ensures { Worded supports.now numbers.old numbers.new }
{
    if numbers[VALUES] > 8 {
        return;
    }
    if unions(supports, numbers) > 0 {
        spreads(numbers);
    }
}
