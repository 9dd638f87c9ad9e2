// Questions 12 and 13 to the rows of one constraint, and its support sets.
ghost use Rattle.std.specs.Prelude.{◌+◌, ◌*◌, ◌≤◌, ◌<◌, ◌≡◌, length};
ghost use Rattle.sheet.specs.Inner.Fill.{with_row, RowRead, RowsAsked};
ghost use Rattle.arrays.specs.Inner.Places.{SUPPORTS};

use arrays::Supports;
use model::ValueSet;
use model::refusals::Question;
use reader::read_word;

// The row of a values at an offset as one number, a hexadecimal digit for each value, if each is below d.
// Rows in their order have keys in theirs.
fn key(sheet: &[u8], o: usize, a: usize, d: usize) -> Option<usize>
    requires { (1 ≤ a) × (a ≤ 3) × (d ≤ 16) × (o + 2 * a ≤ length sheet.now) }
    ensures { RowRead sheet.now o a d result }
{
    let v = read_word(sheet, o);
    if d <= v {
        return None;
    }
    if a == 1 {
        return Some(v);
    }
    let w = read_word(sheet, o + 2);
    if d <= w {
        return None;
    }
    if a == 2 {
        return Some(16 * v + w);
    }
    let u = read_word(sheet, o + 4);
    if d <= u {
        return None;
    }
    Some(16 * (16 * v + w) + u)
}

// A row into the support sets from a base on: its last value to the set for the values before it.
fn add_row(base: usize, key: usize, supports: &mut Supports)
    requires { (key < 4096) × (base + 256 ≤ SUPPORTS) }
    ensures { supports.new ≡ with_row base key supports.old }
{
    let slot = base + key / 16;
    let before = ValueSet {
        bits: supports[slot],
    };
    let last = ValueSet::full(16).only((key % 16) as u16);
    supports[slot] = before.union(last).bits;
}

// Questions 12 and 13 to the n rows of a values from an offset on.
// A value that is not below d is found first, also after rows that do not ascend.
pub fn ask(
    sheet: &[u8],
    from: usize,
    a: usize,
    n: usize,
    d: usize,
    base: usize,
    supports: &mut Supports,
) -> Result<(), Question>
    requires { (1 ≤ a) × (a ≤ 3) × (n ≤ 256) × (d ≤ 16) × (from + 2 * (n * a) ≤ length sheet.now) × (base + 256 ≤ SUPPORTS) }
    ensures { RowsAsked sheet.now from a n d base supports.old supports.new result }
{
    let mut order = Ok(());
    let mut least = 0;
    let mut at = from;
    for i in 0..n {
        let key = key(sheet, at, a, d).ok_or(Question::RowValues)?;
        if key < least {
            order = Err(Question::RowOrder);
        }
        least = key + 1;
        add_row(base, key, supports);
        at += 2 * a;
    }
    order
}
