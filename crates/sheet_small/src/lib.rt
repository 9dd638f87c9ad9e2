// Every sheet of two variables and two values with one constraint on both and at most one symmetry (paper 02, #114), by its position.
// The candidates are walked in their order, and `sheet::question` says of each whether it is a sheet.
#![tactic(auto)]

ghost use Rattle.std.specs.Prelude.{◌≡◌, ◌+◌, ◌*◌, ◌/◌, ◌≤◌, ◌<◌, length};
ghost use Rattle.model.specs.Written.{Fronted};
ghost use Rattle.sheet_small.specs.Small.{is_sheet};
ghost use Rattle.sheet_small.specs.Calls.{CallSmall};
ghost use Rattle.sheet_small.specs.Inner.Inner.{second_no, third_no, fourth_no, IsTable, with_rows, end_at, with_head, with_table, draft_bytes, moved_by};
ghost use Rattle.sheet_small.specs.Inner.Inner.{candidate, Drafts, At};

use model::refusals::Question;

// The room that every small sheet fits.
const SHEET_ROOM: usize = 52;

// A sheet: the first bytes, as many as its size.
#[derive(Clone, Copy)]
struct Draft {
    bytes: [u8; 52],
    size: usize,
}

// A table: the images of the four pair numbers.
#[derive(Clone, Copy)]
struct Images {
    a: usize,
    b: usize,
    c: usize,
    d: usize,
}

// Puts the rows of a set, each where the rows before it end: the next is put over one that is not in the set. Answers where they end.
fn rows(i: usize, b: &mut [u8; 52]) -> usize
    requires { i < 144 }
    ensures { (b.new ≡ with_rows b.old i) × (result ≡ end_at i) }
{
    let set = i % 16;
    let second = 28 + 4 * (set % 2);
    let third = second + 4 * (set / 2 % 2);
    let fourth = third + 4 * (set / 4 % 2);
    b[second + 2] = 1;
    b[third] = 1;
    b[third + 2] = 0;
    b[fourth] = 1;
    b[fourth + 2] = 1;
    fourth + 4 * (set / 8)
}

// Puts the numbers before the rows, of shape i whose rows end at `end`, with so many tables.
fn head(i: usize, end: usize, tables: usize, b: &mut [u8; 52])
    requires { (i < 144) × (28 ≤ end) × (end ≤ 44) × (tables ≤ 1) }
    ensures { b.new ≡ with_head b.old i end tables }
{
    b[0] = 2;
    b[2] = 2;
    b[4] = 1;
    b[6] = tables as u8;
    b[8] = 16;
    b[10] = 20;
    b[12] = end as u8;
    b[14] = (end + 8 * tables) as u8;
    b[16] = (1 + i / 48) as u8;
    b[18] = (1 + i / 16 % 3) as u8;
    b[20] = 2;
    b[22] = ((end - 28) / 4) as u8;
    b[26] = 1;
}

// Table j: a first; of the three numbers that are left the one at index x, then of the two that are left the one at index y. The number
// at index i of those that are not a is i + (4 + i - a) / 4.
fn permuted(j: usize) -> Images
    requires { j < 24 }
    ensures { IsTable j result }
{
    let a = j / 6;
    let x = j / 2 % 3;
    let y = j % 2;
    let z = 1 - y;
    let u = y + (4 + y - x) / 4;
    let v = z + (4 + z - x) / 4;
    Images {
        a,
        b: x + (4 + x - a) / 4,
        c: u + (4 + u - a) / 4,
        d: v + (4 + v - a) / 4,
    }
}

// Puts a table.
fn table(t: Images, at: usize, b: &mut [u8; 52])
    requires { (at ≤ 44) × (t.a < 4) × (t.b < 4) × (t.c < 4) × (t.d < 4) }
    ensures { b.new ≡ with_table b.old at t.a t.b t.c t.d }
{
    b[at] = t.a as u8;
    b[at + 2] = t.b as u8;
    b[at + 4] = t.c as u8;
    b[at + 6] = t.d as u8;
}

// How many numbers that are no pairs of shape i a table moves: each term is 1 for such a number, else 0. Question 15 refuses the table if
// there is one.
fn moved(i: usize, t: Images) -> usize
    requires { (i < 144) × (t.a < 4) × (t.b < 4) × (t.c < 4) × (t.d < 4) }
    ensures { result ≡ moved_by i t.a t.b t.c t.d }
{
    let first = 1 + i / 48;
    let second = 1 + i / 16 % 3;
    let a = (t.a + 3 * (1 - first % 2)) / 4;
    let b = ((t.b + 3) % 4 + 3 * (1 - first / 2)) / 4;
    let c = ((t.c + 2) % 4 + 3 * (1 - second % 2)) / 4;
    let d = ((t.d + 1) % 4 + 3 * (1 - second / 2)) / 4;
    a + b + c + d
}

// Shape i with so many tables, table j.
fn make(i: usize, tables: usize, j: usize) -> Draft
    requires { (i < 144) × (tables ≤ 1) × (j < 24) }
    ensures { (result.bytes ≡ draft_bytes i tables (j / 6) (second_no j) (third_no j) (fourth_no j)) × (result.size ≡ end_at i + 8 * tables) }
{
    let mut b = [0u8; 52];
    let end = rows(i, &mut b);
    head(i, end, tables, &mut b);
    table(permuted(j), end, &mut b);
    Draft {
        bytes: b,
        size: end + 8 * tables,
    }
}

// The candidate of a number.
fn numbered(n: usize) -> Draft
    requires { n < 3600 }
    ensures { Drafts (candidate n) result }
{
    if n < 144 {
        return make(n, 0, 0);
    }
    let m = n - 144;
    make(m / 24, 1, m % 24)
}

// Whether the candidate of a number is a sheet.
fn passes(n: usize) -> bool
    requires { n < 3600 }
    ensures { result ≡ is_sheet (candidate n) }
{
    if 144 <= n {
        let m = n - 144;
        if 0 < moved(m / 24, permuted(m % 24)) {
            return false;
        }
    }
    let d = numbered(n);
    let bytes = d.bytes;
    let size = d.size;
    sheet::question(&bytes[..size]).is_ok()
}

// The sheet at position k; past the last its size is 0.
fn find(k: usize) -> Draft
    ensures { At k result }
{
    let mut seen = 0;
    for n in 0..3600 {
        if passes(n) {
            if seen == k {
                return numbered(n);
            }
            seen += 1;
        }
    }
    Draft {
        bytes: [0u8; 52],
        size: 0,
    }
}

// Copies a sheet to the front of the room, and answers its length.
fn copy(sheet: &[u8], room: &mut [u8]) -> usize
    requires { length sheet.now ≤ length room.old }
    ensures { Fronted room.old sheet.now room.new result }
{
    room[..sheet.len()].copy_from_slice(sheet);
    sheet.len()
}

// Writes the small sheet at position k, from 0, to the front of the room, and answers its length.
pub fn small_sheet(k: usize, room: &mut [u8]) -> Result<usize, Question>
    ensures { CallSmall k room.old result room.new }
{
    let d = find(k);
    let size = d.size;
    if size == 0 {
        return Err(Question::Position);
    }
    if room.len() < SHEET_ROOM {
        return Err(Question::SheetRoom);
    }
    let bytes = d.bytes;
    Ok(copy(&bytes[..size], room))
}
