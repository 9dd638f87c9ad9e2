// Marks of heads, a bit each.
ghost use Rattle.std.specs.Prelude.{◌≡◌, true, not, ℕ, ◌≤◌, ◌<◌, length};
ghost use Rattle.model.specs.Lists.{both};
ghost use Rattle.run_join.specs.Inner.Inner.{marked, MarkedToo, Pending};

pub type Marks = [u64; 1024];

// Whether head k is marked.
pub fn is_marked(marks: &Marks, k: usize) -> bool
    requires { k < 65536 }
    ensures { result ≡ marked marks.now k }
{
    (marks[k / 64] >> (k % 64)) & 1 == 1
}

// Marks head k.
pub fn mark(marks: &mut Marks, k: usize)
    requires { (length marks.old ≡ 1024) × (k < 65536) }
    ensures { MarkedToo marks.old k marks.new }
{
    marks[k / 64] |= 1u64 << (k % 64);
}

// Marks the first n heads.
pub fn mark_all(marks: &mut Marks, n: usize)
    requires { (length marks.old ≡ 1024) × (n ≤ 65536) }
    ensures { (k : ℕ) → k < n → marked marks.new k ≡ true }
{
    for k in 0..n {
        mark(marks, k);
    }
}

// Whether head k is marked and not done.
fn is_pending(marks: &Marks, done: &Marks, k: usize) -> bool
    requires { k < 65536 }
    ensures { result ≡ both (marked marks.now k) (not (marked done.now k)) }
{
    is_marked(marks, k) && !is_marked(done, k)
}

// The first of n heads that is marked and not done.
pub fn pending(marks: &Marks, done: &Marks, n: usize) -> Option<usize>
    requires { n ≤ 65536 }
    ensures { Pending marks.now done.now n result }
{
    (0..n).find(|k| is_pending(marks, done, *k))
}
