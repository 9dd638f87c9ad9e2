// The exact filter for the nogoods of one symmetry at a prefix (paper 01, "The search"), with no list built: a level at a time from the tables.
// It resumes at a mark, and answers the next one.
#![tactic(auto)]

ghost use Rattle.std.specs.Prelude.{◌≡◌, ◌+◌, ◌*◌, ◌%◌, ◌≤◌, ◌<◌, ltb, length};
ghost use Rattle.arrays.specs.Inner.Places.{ENTAILED, TABLES};
ghost use Rattle.model.specs.Lists.{at};
ghost use Rattle.model.specs.Problem.{Problem};
ghost use Rattle.prune_symmetries.specs.Inner.Levels.{FilterRequires, FilterEnsures, image_at, Missed, Taken, Level, cuts, CutResult, LevelResult, Ready};
ghost use Rattle.prune_symmetries.specs.Inner.Levels.{PassResult, AtSplit, SplitResult};

use arrays::{ENTAILED, OBEYED, OWN, SMALLER, Tables, Work};
use filter::entry;
use filter::entry::Step;

// Whether the level from a place of the tables on takes a value of some set.
fn hits(sets: &[u16; 16], tables: &Tables, first: usize) -> bool
    requires { first + 16 ≤ TABLES }
    ensures { Missed result sets.now tables.now first }
{
    let mut hit = 0u16;
    for y in 0..16 {
        hit |= sets[y] & tables[first + y];
    }
    hit != 0
}

// Takes the level's sets from the sets; true where one is left empty. On a copy, which nothing else can be lent: so the compiler takes all sixteen at once.
fn take(sets: &mut [u16; 16], tables: &Tables, first: usize) -> bool
    requires { (length sets.old ≡ 16) × (first + 16 ≤ TABLES) }
    ensures { Taken sets.old tables.now first sets.new result }
{
    let mut left = *sets;
    let mut empty = false;
    for y in 0..16 {
        let t = left[y] & !tables[first + y];
        left[y] = t;
        empty |= t == 0;
    }
    *sets = left;
    empty
}

// The images of the smaller values of x's initial set go; true at an empty set.
fn cut(sets: &mut [u16; 16], tables: &Tables, e: usize, x: usize, v: usize) -> bool
    requires { (p : Problem) × Level p sets.old tables.now e x v }
    ensures sixteen { length sets.new ≡ length sets.old }
    ensures entries { (p : Problem) → Level p sets.old tables.now e x v → CutResult result p.variables sets.old
        (cuts p e x v) sets.new }
{
    let first = SMALLER + 3072 * e + 256 * x + 16 * v;
    if !hits(sets, tables, first) {
        return false;
    }
    take(sets, tables, first)
}

// The image of the pair (x, v) under symmetry e: 16 times its variable plus its value.
fn image(tables: &Tables, e: usize, x: usize, v: usize) -> u16
    requires { (e < 16) × (x < 12) × (v < 16) }
    ensures { result ≡ at tables.now (image_at e x v) }
{
    tables[OWN + 192 * e + 16 * x + v]
}

// A level: the cuts are made, and then the image of the prefix's own pair is an equality.
fn level(sets: &mut [u16; 16], tables: &Tables, e: usize, x: usize, v: usize) -> Step
    requires { (p : Problem) × Level p sets.old tables.now e x v }
    ensures sixteen { length sets.new ≡ length sets.old }
    ensures entries { (p : Problem) → Level p sets.old tables.now e x v → LevelResult result p sets.old e x v
        sets.new }
{
    if cut(sets, tables, e, x, v) {
        return Step::Failed;
    }
    let y = image(tables, e, x, v);
    entry::equality(sets, (y / 16) as usize, (y % 16) as u8)
}

// Passes the levels from a start, until the result is known: None where no assignment obeys, OBEYED, the level that splits the assignments, or the mark of the
// end.
fn pass(
    sets: &mut [u16; 16],
    work: &Work,
    tables: &Tables,
    e: usize,
    k: usize,
    start: usize,
) -> Option<u64>
    requires { (p : Problem) × Ready p sets.old work.now tables.now e k start }
    ensures sixteen { length sets.new ≡ length sets.old }
    ensures entries { (p : Problem) → Ready p sets.old work.now tables.now e k start → PassResult p
        sets.old work.now tables.now e k start sets.new result }
{
    for j in start..k {
        match level(sets, tables, e, j, work[j] as usize) {
            Step::Next => {}
            Step::Failed => return None,
            Step::Obeyed => return Some(OBEYED),
            Step::Split => return Some(j as u64),
        }
    }
    Some(ENTAILED * k as u64 + k as u64)
}

// At a level whose own pair some assignments have and some have not: the pair goes where no assignment that has it obeys the levels after it, and
// nothing else does. Those are passed on a copy with the pair forced, up to the next such level; where they took nothing, the same is asked
// there. The mark says whether every assignment from the sets left obeys.
fn resolve(
    sets: &mut [u16; 16],
    work: &Work,
    tables: &Tables,
    e: usize,
    k: usize,
    split: usize,
) -> u64
    requires { (p : Problem) × AtSplit p sets.old work.now tables.now e k split }
    ensures { (p : Problem) → AtSplit p sets.old work.now tables.now e k split → SplitResult p sets.old
        work.now e k split sets.new result }
{
    let y = image(tables, e, split, work[split] as usize);
    let x = (y / 16) as usize;
    let v = (y % 16) as u8;
    let mut ahead = *sets;
    entry::force(&mut ahead, x, v);
    let forced = ahead;
    let Some(reached) = pass(&mut ahead, work, tables, e, k, split + 1) else {
        entry::disequality(sets, x, v);
        return OBEYED;
    };
    if entry::changed(&forced, &ahead) {
        return split as u64;
    }
    if reached < k as u64 {
        if resolve(&mut ahead, work, tables, e, k, reached as usize) < ENTAILED {
            return split as u64;
        }
        if entry::changed(&forced, &ahead) {
            return split as u64;
        }
    }
    ENTAILED * k as u64 + split as u64
}

// Whether a symmetry's nogoods are to be filtered at the prefix of k values: not where their mark says that they take nothing there.
pub fn due(mark: u64, k: usize) -> bool
    requires { k ≤ 12 }
    ensures { result ≡ ltb mark (ENTAILED * k) }
{
    mark < ENTAILED * k as u64
}

// Takes from the sets each value that no assignment uses that is drawn from them and obeys the nogoods of symmetry e at the prefix of k values;
// the levels before the mark's say nothing more. None where none obeys, and the sets then say nothing; else the next mark, which says too
// whether every assignment from the sets left obeys.
pub fn filter(
    sets: &mut [u16; 16],
    work: &Work,
    tables: &Tables,
    e: usize,
    k: usize,
    mark: u64,
) -> Option<u64>
    requires { (p : Problem) × FilterRequires p sets.old work.now tables.now e k (mark % ENTAILED) }
    ensures { (p : Problem) → FilterRequires p sets.old work.now tables.now e k (mark % ENTAILED) → FilterEnsures p
        sets.old work.now e k sets.new result }
{
    let reached = pass(sets, work, tables, e, k, (mark % ENTAILED) as usize)?;
    if reached < k as u64 {
        return Some(resolve(sets, work, tables, e, k, reached as usize));
    }
    Some(reached)
}
