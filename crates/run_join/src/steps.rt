// The heads taken one behind the other.
ghost use Rattle.std.specs.Prelude.{◌≡◌, [], ◌∷◌, ℕ, suc, ◌+◌, ◌*◌, ◌≤◌, ◌<◌, length};
ghost use Rattle.model.specs.Lists.{both, choose, same};
ghost use Rattle.run_cut.specs.Parts.{after};
ghost use Rattle.run_join.specs.Join.{path_at, from_at, reach_place, reach_at, reach_or, best_of, heads_in, may_take, step_of};
ghost use Rattle.run_join.specs.Join.{stand_path, nearer, nearest_of, head_number};
ghost use Rattle.run_join.specs.Inner.Inner.{Path, HeadAt, HeadOr, Heads, marked, begins, First};

use crate::marks::{Marks, is_marked};
use crate::paths::{are_same, comes_after, four_at, padded, padded_same, path};

// Where head k begins.
pub fn from(l: &[u8], k: usize) -> &[u8]
    requires { HeadAt l.now k }
    ensures { result.now ≡ from_at l.now k }
{
    path(l, 115 * k + 76)
}

// Where the path stands that head k reaches.
pub fn reach_place(l: &[u8], k: usize) -> usize
    requires { 115 * k + 115 ≤ length l.now }
    ensures { result ≡ reach_place l.now k }
{
    if four_at(l, 115 * k) == 1 {
        return 115 * k + 89;
    }
    115 * k + 102
}

// How far head k reaches.
pub fn reach(l: &[u8], k: usize) -> &[u8]
    requires { HeadAt l.now k }
    ensures { result.now ≡ reach_at l.now k }
{
    path(l, reach_place(l, k))
}

// How far the best so far reaches; where there is none, the path given.
fn reach_or<'a>(here: &'a [u8; 13], l: &'a [u8], best: Option<usize>) -> &'a [u8]
    requires { Path here.now 0 × HeadOr l.now best }
    ensures { result.now ≡ reach_or l.now (path_at here.now 0) (head_number best) }
{
    match best {
        None => path(here, 0),
        Some(k) => reach(l, k),
    }
}

// Whether head k is marked and begins at the path given.
fn begins_here(here: &[u8; 13], l: &[u8], marks: &Marks, k: usize) -> bool
    requires { Path here.now 0 × HeadAt l.now k × (k < 65536) }
    ensures { result ≡ begins marks.now l.now (path_at here.now 0) k }
{
    is_marked(marks, k) && padded_same(padded(l, 115 * k + 76), here)
}

// Of heads k to n the first that is marked and begins at the path given.
fn next_here(here: &[u8; 13], l: &[u8], n: usize, marks: &Marks, k: usize) -> Option<usize>
    requires { Path here.now 0 × Heads l.now n }
    ensures { First (begins marks.now l.now (path_at here.now 0)) k n result }
{
    (k..n).find(|j| begins_here(here, l, marks, *j))
}

// Whether head k reaches further than the best so far; where there is none, than the path given.
fn is_further(here: &[u8; 13], l: &[u8], best: Option<usize>, k: usize) -> bool
    requires { Path here.now 0 × HeadOr l.now best × HeadAt l.now k }
    ensures { result ≡ after (reach_or l.now (path_at here.now 0) (head_number best)) (reach_at l.now k) }
{
    comes_after(reach_or(here, l, best), reach(l, k))
}

// Of those of the first n heads that may be taken and begin at the path given, the one that reaches furthest after it.
fn best_from(here: &[u8; 13], l: &[u8], n: usize, marks: &Marks) -> Option<usize>
    requires { Path here.now 0 × Heads l.now n × ((k : ℕ) → k < n → marked marks.now k ≡ may_take l.now k) }
    ensures { (head_number result ≡ best_of l.now (path_at here.now 0) n) × (head_number result ≤ n) }
{
    let mut best = None;
    let mut k = 0;
    while let Some(next) = next_here(here, l, n, marks, k) {
        if is_further(here, l, best, next) {
            best = Some(next);
        }
        k = next + 1;
    }
    best
}

// Where one stands.
pub fn stand_path(l: &[u8], stand: Option<usize>) -> &[u8]
    requires { HeadOr l.now stand }
    ensures { result.now ≡ stand_path l.now (head_number stand) }
{
    match stand {
        None => &l[..0],
        Some(k) => reach(l, k),
    }
}

// The next head that is taken.
pub fn step(l: &[u8], n: usize, marks: &Marks, stand: Option<usize>) -> Option<usize>
    requires { Heads l.now n × (n ≡ heads_in l.now) × (head_number stand ≤ n) × ((k : ℕ) → k < n → marked marks.now k ≡ may_take l.now k) }
    ensures { (head_number result ≡ step_of l.now (head_number stand)) × (head_number result ≤ n) }
{
    if are_same(stand_path(l, stand), &[255]) {
        return None;
    }
    match stand {
        None => best_from(&[0; 13], l, n, marks),
        Some(k) => best_from(padded(l, reach_place(l, k)), l, n, marks),
    }
}

// Whether head k begins before the nearest so far.
fn begins_before(l: &[u8], near: Option<usize>, k: usize) -> bool
    requires { HeadOr l.now near × HeadAt l.now k }
    ensures { result ≡ nearer l.now (head_number near) (from_at l.now k) }
{
    match near {
        None => true,
        Some(j) => comes_after(from(l, k), from(l, j)),
    }
}

// Whether head k begins after the path given and before the nearest so far.
fn is_nearer(here: &[u8], l: &[u8], near: Option<usize>, k: usize) -> bool
    requires { HeadOr l.now near × HeadAt l.now k }
    ensures { result ≡ both (after here.now (from_at l.now k)) (nearer l.now (head_number near) (from_at l.now k)) }
{
    comes_after(here, from(l, k)) && begins_before(l, near, k)
}

// Of the first n heads that begin after the path given, the one that begins nearest.
pub fn nearest(here: &[u8], l: &[u8], n: usize) -> Option<usize>
    requires { Heads l.now n }
    ensures { (head_number result ≡ nearest_of l.now here.now n) × (head_number result ≤ n) }
{
    let mut near = None;
    for k in 0..n {
        if is_nearer(here, l, near, k) {
            near = Some(k);
        }
    }
    near
}
