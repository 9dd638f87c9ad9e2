// The task of a run, and what is put among the numbers of the compiled problem before the search: limit, room, order, block.
#![tactic(auto)]

ghost use Rattle.std.specs.Prelude.{◌≡◌, ℕ, ◌+◌, ◌≤◌, ◌<◌, length, set};
ghost use Rattle.model.specs.Lists.{at};
ghost use Rattle.arrays.specs.Inner.Places.{LIMIT, ROOM, ORDER, BLOCK, WANTED};
ghost use Rattle.run_task.specs.Inner.Task.{room_for, ordered};

use arrays::{BLOCK, LIMIT, ORDER, ROOM, WANTED, Work};
use model::long;

// Puts the node limit and the number of plans that there is room for among the numbers, which are lent as a slice: that tells their length.
pub fn put_bounds(numbers: &mut [u64], limit: u64, room: u64)
    requires { ROOM < length numbers.old }
    ensures { numbers.new ≡ set (set numbers.old LIMIT limit) ROOM room }
{
    numbers[LIMIT] = limit;
    numbers[ROOM] = room;
}

// Puts the order of the variables among the numbers.
pub fn put_order(numbers: &mut [u64], order: &[u8; 16])
    requires { ORDER + 12 ≤ length numbers.old }
    ensures { numbers.new ≡ ordered order.now 12 numbers.old }
{
    for k in 0..12 {
        numbers[ORDER + k] = long(order[k]);
    }
}

// Puts the set of the positions of the block's variables among the numbers.
pub fn put_block(numbers: &mut [u64], positions: u64)
    requires { BLOCK < length numbers.old }
    ensures { numbers.new ≡ set numbers.old BLOCK positions }
{
    numbers[BLOCK] = positions;
}

// The number of plans that there is room for, with n variables: the list's, else one less than are asked for.
pub fn room_for(work: &Work, n: usize, size: usize) -> u64
    requires { 0 < n }
    ensures { result ≡ room_for (at work.now WANTED) n size }
{
    let wanted = work[WANTED];
    if wanted == 0 {
        return (size / n) as u64;
    }
    wanted - 1
}

// The order 0, 1, ..
pub fn by_position(order: &mut [u8; 16])
    requires { length order.old ≡ 16 }
    ensures { (length order.new ≡ 16) × ((k : ℕ) → k < 16 → at order.new k ≡ k) }
{
    for k in 0..16 {
        order[k] = k as u8;
    }
}
