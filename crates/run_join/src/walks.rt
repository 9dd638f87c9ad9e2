// The sums of the heads taken.
ghost use Rattle.std.specs.Prelude.{◌≡◌, ℕ, ◌+◌, ◌*◌, ◌^◌, ◌≤◌, ◌<◌, length};
ghost use Rattle.model.specs.Lists.{at};
ghost use Rattle.run_join.specs.Join.{heads_in, may_take, head_number};
ghost use Rattle.run_join.specs.Inner.Inner.{Heads, marked, Room, AddedCounts, AddedHead, Summed};

use crate::marks::Marks;
use crate::paths::four_at;
use crate::steps::step;

// Where one stands: None at the empty path, else where that head reaches; and the sums of the heads taken.
#[derive(Clone, Copy)]
pub struct Walked {
    pub stand: Option<usize>,
    pub plans: u64,
    pub nodes: u64,
    pub counts: [u64; 12],
}

// The counts with those of head k.
fn add_counts(counts: [u64; 12], l: &[u8], k: usize) -> [u64; 12]
    requires { (115 * k + 115 ≤ length l.now) × ((x : ℕ) → x < 12 → at counts x < 2 ^ 63) }
    ensures { AddedCounts counts l.now k result }
{
    let mut sums = counts;
    for i in 0..12 {
        sums[i] += four_at(l, 115 * k + 12 + 4 * i);
    }
    sums
}

// The sums with the figures of head k, where one stands then.
fn with_head(w: Walked, l: &[u8], k: usize) -> Walked
    requires { (115 * k + 115 ≤ length l.now) × Room w.plans w.nodes w.counts }
    ensures { AddedHead w.plans w.nodes w.counts l.now k (head_number result.stand) result.plans result.nodes result.counts }
{
    let plans = w.plans + four_at(l, 115 * k + 4);
    let nodes = w.nodes + four_at(l, 115 * k + 8);
    let counts = add_counts(w.counts, l, k);
    Walked {
        stand: Some(k),
        plans,
        nodes,
        counts,
    }
}

// Takes the marked heads one behind the other.
pub fn walk(l: &[u8], n: usize, marks: &Marks) -> Walked
    requires { Heads l.now n × (n ≡ heads_in l.now) × ((k : ℕ) → k < n → marked marks.now k ≡ may_take l.now k) }
    ensures { Summed l.now (head_number result.stand) result.plans result.nodes result.counts }
{
    let mut w = Walked {
        stand: None,
        plans: 0,
        nodes: 0,
        counts: [0; 12],
    };
    for _j in 0..n {
        let Some(next) = step(l, n, marks, w.stand) else {
            return w;
        };
        w = with_head(w, l, next);
    }
    w
}
