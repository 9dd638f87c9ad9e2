// The numbers that are kept by variable: the sets of constraints that touch it, and the initial sets.
ghost use Rattle.std.specs.Prelude.{◌≡◌, ◌+◌, ◌≤◌};
ghost use Rattle.model.specs.Lists.{at};
ghost use Rattle.model.specs.Inner.Filling.{Filled};
ghost use Rattle.arrays_order.specs.Inner.Steps.{MovedSets};

use crate::places::{Order, entry};
use arrays::{INITIAL, Numbers, TOUCHING};

// From a place on, number i becomes that of variable order[i].
fn spread(order: Order, from: usize, numbers: &mut Numbers)
    requires { from ≤ 16 }
    ensures { Filled (λ i. from + i) (λ i r. r ≡ at numbers.old (from + at order.variables i)) order.n numbers.old
        numbers.new }
{
    let mut old = [0u64; 16];
    old.copy_from_slice(&numbers[from..from + 16]);
    for i in 0..order.n {
        numbers[from + i] = old[usize::from(entry(&order.variables, i))];
    }
}

pub fn move_sets(order: Order, numbers: &mut Numbers)
    ensures { MovedSets order.n order.variables numbers.old numbers.new }
{
    spread(order, TOUCHING, numbers);
    spread(order, INITIAL, numbers);
}
