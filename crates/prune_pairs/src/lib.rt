// Pruning by the constraints on two variables (paper 01, "The search"), by variable: a changed set cuts all other sets at once.
#![tactic(auto)]

ghost use Rattle.std.specs.Prelude.{◌≡◌, false, ◌+◌, ◌*◌, ◌≤◌, ◌<◌, length};
ghost use Rattle.model.specs.Problem.{Problem};
ghost use Rattle.model.specs.Inner.Pruning.{Sets};
ghost use Rattle.arrays.specs.Inner.Places.{TABLES};
ghost use Rattle.prune_pairs.specs.Inner.Links.{ArcsPending, Settled, ArcsMade};
ghost use Rattle.prune_pairs.specs.Inner.Steps.{Narrow, Added, Cover, Covered, Spared, CutToCover, CanCut, CutBy};

use arrays::{LOOSE, Numbers, Tables};
use model::ValueSet;

// Adds sixteen sets of the tables, from a base on, to the cover.
fn add(cover: &mut [u16; 16], tables: &Tables, base: usize)
    requires { (base + 16 ≤ TABLES) × Narrow tables.now base 16 × Sets 16 cover.old }
    ensures { Added cover.old tables.now base cover.new }
{
    for y in 0..16 {
        cover[y] |= tables[base + y];
    }
}

// The values that go together with some value of the set of x: sixteen sets.
fn cover_of(tables: &Tables, x: usize, set: ValueSet) -> [u16; 16]
    requires { (x < 12) × Narrow tables.now (256 * x) 256 }
    ensures { Cover tables.now x set.bits result }
{
    let mut cover = [0u16; 16];
    let mut left = set;
    while !left.is_empty() {
        let v = left.lowest() as usize;
        add(&mut cover, tables, 256 * x + 16 * v);
        left = left.without_lowest();
    }
    cover
}

// Whether some set has a value outside the cover.
fn exceeds(sets: &[u16; 16], cover: &[u16; 16]) -> bool
    requires { Sets 16 sets.now × Sets 16 cover.now }
    ensures { result ≡ false → Covered sets.now cover.now }
{
    let mut over = 0u16;
    for y in 0..16 {
        over |= sets[y] & !cover[y];
    }
    over != 0
}

// Cuts the sets down to the cover; the variables whose sets changed, or None where one is left with nothing. From the last variable down: they are settled
// in order, so the sets that can lose their last value stand at the end, and a dead end is seen sooner.
fn cut(sets: &mut [u16; 16], cover: &[u16; 16]) -> Option<u64>
    requires { length sets.old ≡ 16 }
    ensures { CutToCover sets.old cover.now sets.new result }
{
    let mut changed = 0u64;
    for y in (0..12).rev() {
        let old = sets[y];
        let new = old & cover[y];
        if new != old {
            if new == 0 {
                return None;
            }
            sets[y] = new;
            changed |= 1u64 << y;
        }
    }
    Some(changed)
}

// Cuts the sets down to a row of the tables, as `cut` does to a cover, but for those below `low`, which lose nothing. They are two functions, since a
// function with one caller is compiled into it.
fn cut_row(sets: &mut [u16; 16], row: &[u16], low: usize) -> Option<u64>
    requires { (length sets.old ≡ 16) × (length row.now ≡ 16) × Spared sets.old row.now low }
    ensures { CutToCover sets.old row.now sets.new result }
{
    let mut changed = 0u64;
    for y in (low..12).rev() {
        let old = sets[y];
        let new = old & row[y];
        if new != old {
            if new == 0 {
                return None;
            }
            sets[y] = new;
            changed |= 1u64 << y;
        }
    }
    Some(changed)
}

// Cuts by the set of x: the cover of one value is its row of the tables, and two values leave nothing to do where x is loose.
fn cut_by(sets: &mut [u16; 16], tables: &Tables, loose: u64, x: usize, low: usize) -> Option<u64>
    requires { (p : Problem) × CanCut p tables.now sets.old loose x low }
    ensures { (p : Problem) → CanCut p tables.now sets.old loose x low → CutBy p sets.old sets.new x result }
{
    let set = ValueSet { bits: sets[x] };
    if set.without_lowest().is_empty() {
        let base = 256 * x + 16 * (set.lowest() as usize);
        let rows = &tables[..];
        return cut_row(sets, &rows[base..base + 16], low);
    }
    if (loose >> x) & 1 == 1 {
        return Some(0);
    }
    let cover = cover_of(tables, x, set);
    if exceeds(sets, &cover) {
        return cut(sets, &cover);
    }
    Some(0)
}

// Cuts by the sets of the dirty variables, and again by those that changed, until nothing moves; the variables whose sets changed, or None at a dead end.
// The variables below `low` are settled.
pub fn arcs(
    sets: &mut [u16; 16],
    tables: &Tables,
    numbers: &Numbers,
    dirty: u64,
    low: usize,
) -> Option<u64>
    requires settled { Settled sets.old dirty low }
    requires arcs_pending { (p : Problem) × ArcsPending p numbers.now tables.now sets.old dirty }
    ensures { (p : Problem) → ArcsPending p numbers.now tables.now sets.old dirty → ArcsMade p sets.old
        sets.new result }
{
    let mut left = dirty;
    let mut all = 0u64;
    while left != 0 {
        let x = u64::trailing_zeros(left) as usize;
        let changed = cut_by(sets, tables, numbers[LOOSE], x, low)?;
        all |= changed;
        left = (left & (left - 1)) | changed;
    }
    Some(all)
}
