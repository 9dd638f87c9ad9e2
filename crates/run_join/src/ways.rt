// The heads that may be taken: of heads that join those that lead to the last path, else all.
ghost use Rattle.std.specs.Prelude.{◌≡◌, [], ◌<◌, length};
ghost use Rattle.model.specs.Lists.{any, below, both, same};
ghost use Rattle.run_join.specs.Join.{path_at, from_at, reach_at, heads_in, goes_on};
ghost use Rattle.run_join.specs.Inner.Inner.{Path, HeadAt, Heads, marked, NoMarks, MarkedBack, Leading, Ways};

use crate::marks::{Marks, is_marked, mark, mark_all, pending};
use crate::paths::{comes_after, padded, padded_same, path};
use crate::steps::{from, reach_place};

// Whether head k goes on and reaches the path given.
fn comes_to(here: &[u8; 13], l: &[u8], k: usize) -> bool
    requires { Path here.now 0 × HeadAt l.now k }
    ensures { result ≡ both (same (reach_at l.now k) (path_at here.now 0)) (goes_on l.now k) }
{
    let place = reach_place(l, k);
    padded_same(padded(l, place), here) && comes_after(from(l, k), path(l, place))
}

// Marks those of the first n heads that go on and reach the path given.
fn mark_back(here: &[u8; 13], l: &[u8], n: usize, marks: &mut Marks)
    requires { Path here.now 0 × Heads l.now n × (length marks.old ≡ 1024) }
    ensures { MarkedBack (path_at here.now 0) l.now n marks.old marks.new }
{
    for k in 0..n {
        if comes_to(here, l, k) {
            mark(marks, k);
        }
    }
}

// Marks the heads that lead to the last path: those that reach it, then, head by head, those that reach where a marked one begins.
fn mark_leading(l: &[u8], n: usize, marks: &mut Marks)
    requires { Heads l.now n × (n ≡ heads_in l.now) × NoMarks marks.old }
    ensures { Leading l.now n marks.new }
{
    mark_back(&[1, 255, 0, 0, 0, 0, 0, 0, 0, 0, 0, 0, 0], l, n, marks);
    let mut done = [0u64; 1024];
    while let Some(next) = pending(marks, &done, n) {
        mark(&mut done, next);
        mark_back(padded(l, 115 * next + 76), l, n, marks);
    }
}

// Whether head k is marked and begins at the empty path.
fn is_first(l: &[u8], marks: &Marks, k: usize) -> bool
    requires { HeadAt l.now k × (k < 65536) }
    ensures { result ≡ both (marked marks.now k) (same (from_at l.now k) []) }
{
    is_marked(marks, k) && from(l, k).is_empty()
}

// Whether a marked head begins at the empty path.
fn any_first(l: &[u8], n: usize, marks: &Marks) -> bool
    requires { Heads l.now n }
    ensures { result ≡ any (λ k. both (marked marks.now k) (same (from_at l.now k) [])) (below n) }
{
    (0..n).any(|k| is_first(l, marks, k))
}

// Marks the heads that may be taken; whether the ranges join.
pub fn find_ways(l: &[u8], n: usize, marks: &mut Marks) -> bool
    requires { Heads l.now n × (n ≡ heads_in l.now) × NoMarks marks.old }
    ensures { Ways l.now n marks.new result }
{
    mark_leading(l, n, marks);
    if any_first(l, n, marks) {
        return true;
    }
    mark_all(marks, n);
    false
}
