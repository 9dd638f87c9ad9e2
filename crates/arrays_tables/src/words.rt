// Support sets of constraints on three variables, eight values of eight sets in one number.
ghost use Rattle.std.specs.Prelude.{ℕ, ◌+◌, ◌*◌, ◌≤◌, ◌<◌};
ghost use Rattle.model.specs.Lists.{at};
ghost use Rattle.model.specs.Inner.Filling.{Filled};
ghost use Rattle.arrays.specs.Inner.Places.{SUPPORTS};
ghost use Rattle.arrays_tables.specs.Inner.Steps.{Lanes, Turned, Word};

use arrays::Supports;

// The first bit of each lane.
const ONES: u64 = 72340172838076673;

// Eight values of each of eight sets, sixteen apart from a base on: the first set's in the lowest byte.
fn lanes(supports: &Supports, base: usize) -> u64
    requires { base + 112 < SUPPORTS }
    ensures { Lanes (λ u. at supports.now (base + 16 * u)) result }
{
    let mut all = 0u64;
    for t in 0..8 {
        all = 256 * all + ((supports[base + 16 * (7 - t)] & 255) as u64);
    }
    all
}

// Value w of each lane of eight numbers: that of the first number becomes the first value of the lane.
fn turned(words: &[u64; 16], w: usize) -> u64
    requires { w < 8 }
    ensures { Turned (at words.now) w result }
{
    let mut all = 0u64;
    for t in 0..8 {
        all = (2 * all) | ((words[7 - t] >> w) & ONES);
    }
    all
}

// Number n of constraint k's sixteen, in lanes by the first variable's values: eight of the second's values, then, of those, eight of the third's.
fn word(supports: &Supports, made: &[u64; 16], k: usize, n: usize) -> u64
    requires k_bound { (k < 32) × (n < 16) }
    requires word { 8 ≤ n → (v : ℕ) → v < 8 → Word supports.now k v (at made.now v) }
    ensures { Word supports.now k n result }
{
    let i = n % 8;
    if n / 8 == 0 {
        lanes(supports, 256 * k + i)
    } else {
        turned(made, i)
    }
}

// The sixteen numbers of constraint k.
pub fn words(supports: &Supports, k: usize, made: &mut [u64; 16])
    requires { k < 32 }
    ensures { Filled (λ n. n) (Word supports.now k) 16 made.old made.new }
{
    for n in 0..16 {
        made[n] = word(supports, made, k, n);
    }
}
