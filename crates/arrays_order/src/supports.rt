// A support table with two coordinates exchanged. A constraint has 256 sets: the set of last values stands at 16 times the first value plus the second of
// three,
// at the first of two, and at 0 for one.
ghost use Rattle.std.specs.Prelude.{◌≡◌, ℕ, ◌+◌, ◌≤◌, ◌<◌, length};
ghost use Rattle.model.specs.Lists.{at};
ghost use Rattle.model.specs.ValueSets.{has, mask_of};
ghost use Rattle.model.specs.Inner.Filling.{Filled};
ghost use Rattle.arrays.specs.Inner.Places.{SUPPORTS};
ghost use Rattle.arrays_order.specs.Inner.Steps.{Cell, Added, Narrow, Crossed, Swapped, Transposed};

use arrays::Supports;

// The set of v if w is in the set, else none.
fn cell(s: u16, w: usize, v: usize) -> u16
    requires { (w < 16) × (v < 16) }
    ensures { Cell s w v result }
{
    if (s >> w) & 1 == 1 { 1u16 << v } else { 0 }
}

// v is added to the columns of the members of its set.
fn add(s: u16, v: usize, columns: &mut [u16; 16])
    requires { v < 16 }
    ensures { Filled (λ w. w) (Added s v columns.old) 16 columns.old columns.new }
{
    for w in 0..16 {
        columns[w] |= cell(s, w, v);
    }
}

// For each w the values whose sets have it, of sixteen sets from a base on.
fn gather(supports: &Supports, base: usize, columns: &mut [u16; 16])
    requires { (base + 16 ≤ SUPPORTS) × ((w : ℕ) → at columns.old w ≡ 0) }
    ensures { (length columns.new ≡ 16) × ((w : ℕ) → w < 16 → at columns.new w ≡ mask_of
        (λ v. has (at supports.now (base + v)) w)) }
{
    for v in 0..16 {
        add(supports[base + v], v, columns);
    }
}

// The two values of sixteen sets.
pub fn transpose(base: usize, supports: &mut Supports)
    requires { base + 16 ≤ SUPPORTS }
    ensures { Transposed base 16 supports.old supports.new }
{
    let mut columns = [0u16; 16];
    gather(supports, base, &mut columns);
    supports[base..base + 16].copy_from_slice(&columns);
}

// A constraint's table: its 256 sets, from a base on, and how many values there are.
#[derive(Clone, Copy)]
pub struct Table {
    pub base: usize,
    pub values: usize,
    ghost inside: { base + 256 ≤ SUPPORTS },
    ghost few: { values ≤ 16 },
}

impl Table {
    // The sets with first value v and second w are exchanged with those of w and v, for each w below v.
    fn cross(self, v: usize, supports: &mut Supports)
        requires { v < 16 }
        ensures { Crossed self.base v v supports.old supports.new }
    {
        for w in 0..v {
            supports.swap(self.base + (16 * v + w), self.base + (16 * w + v));
        }
    }

    // The first and the second of three values.
    pub fn swap(self, supports: &mut Supports)
        requires { Narrow self.values self.base supports.old }
        ensures { Swapped self.base supports.old supports.new }
    {
        for v in 0..self.values {
            self.cross(v, supports);
        }
    }

    // The second and the last of three values.
    pub fn transpose_each(self, supports: &mut Supports)
        requires { Narrow self.values self.base supports.old }
        ensures { Transposed self.base 256 supports.old supports.new }
    {
        for v in 0..self.values {
            transpose(self.base + 16 * v, supports);
        }
    }
}
