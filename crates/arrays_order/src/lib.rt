// The compiled problem (crate arrays) with its variables in another order (paper 02, request 108): variable i of the new problem is variable order[i] of the
// old.
// It runs once a run, before the search's tables are made.
#![tactic(auto)]

ghost use Rattle.model.specs.Problem.{Problem};
ghost use Rattle.arrays_order.specs.Inner.Reorder.{Movable, Moved};

use crate::places::Order;
use arrays::{CONSTRAINTS, Numbers, SYMMETRIES, Supports, VALUES, VARIABLES};

mod constraints;
mod images;
mod places;
mod sets;
mod supports;

// The arrays of a problem become those of the reordered problem.
pub fn reorder(order: &[u8; 16], numbers: &mut Numbers, supports: &mut Supports, images: &mut [u8])
    requires { (p : Problem) × Movable p order.now numbers.old supports.old images.old }
    ensures { (p : Problem) → Movable p order.now numbers.old supports.old images.old → Moved p
        order.now numbers.old supports.old images.old numbers.new supports.new
        images.new }
{
    let n = numbers[VARIABLES] as usize;
    let d = numbers[VALUES] as usize;
    let c = numbers[CONSTRAINTS] as usize;
    let g = numbers[SYMMETRIES] as usize;
    let mut stands = [0u8; 16];
    places::positions(order, n, &mut stands);
    let order = Order {
        variables: *order,
        n,
    };
    sets::move_sets(order, numbers);
    images::rename(order, &stands, g, images);
    constraints::rename(&stands, c, d, numbers, supports);
}
