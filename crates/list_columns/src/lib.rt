// Plans stored by window (paper 02, #103): rows to columns and back. `means` in specs/Meaning.antt says what the answers mean.
#![tactic(auto)]

ghost use Rattle.std.specs.Prelude.{◌≡◌, ◌+◌, ◌*◌, ◌≤◌, ◌<◌, length};
ghost use Rattle.model.specs.Lists.{flat};
ghost use Rattle.model.specs.Run.{listed_plans};
ghost use Rattle.model.specs.Sheet.{«word» as word_of};
ghost use Rattle.model.specs.Refusals.{verdict_from_question};
ghost use Rattle.model.specs.Bytes.{two_bytes};
ghost use Rattle.model.specs.Written.{placed, Written};
ghost use Rattle.list_columns.specs.Columns.{transposed, heading, small_values, bytes_verdict, is_store};
ghost use Rattle.list_columns.specs.Inner.Steps.{Inside, Copied};
ghost use Rattle.list_columns.specs.Calls.{CallColumns, CallRows};

use model::refusals::Question;
use model::wide;

// Question 21: each value is below 16. The largest is taken and the loop has one way out, so that many are compared in one step.
fn small(bytes: &[u8]) -> bool
    ensures { result ≡ small_values bytes.now }
{
    let mut most = 0;
    for byte in bytes {
        most = most.max(*byte);
    }
    most < 16
}

// Questions 20 to 22, of rows of n bytes and the room for a header and these bytes.
fn question(n: usize, bytes: &[u8], header: usize, room: usize) -> Result<(), Question>
    requires { header ≤ 8 }
    ensures { verdict_from_question result ≡ bytes_verdict n bytes.now (header + length bytes.now) room }
{
    if n < 1 || 12 < n || bytes.len() % n != 0 || 4096 < bytes.len() / n {
        return Err(Question::WholeRows);
    }
    let values = small(bytes);
    let fits = header + bytes.len() <= room;
    if !values {
        return Err(Question::SmallValues);
    }
    if !fits {
        return Err(Question::Room);
    }
    Ok(())
}

// Puts a 16-bit number; answers the place after it.
fn put_word(out: &mut [u8], at: usize, x: usize) -> usize
    requires { (at + 2 ≤ length out.old) × (x < 65536) }
    ensures { Written out.old at (two_bytes x) out.new result }
{
    let next = at + 1;
    out[at] = (x % 256) as u8;
    out[next] = (x / 256) as u8;
    next + 1
}

// Puts the header at the front; answers the place after it.
fn put_heading(out: &mut [u8], variables: usize, plans: usize) -> usize
    requires { (8 ≤ length out.old) × (variables < 65536) × (plans < 65536) × (8 + variables * plans < 65536) }
    ensures { Written out.old 0 (heading variables plans) out.new result }
{
    let second = put_word(out, 0, variables);
    let third = put_word(out, second, plans);
    let fourth = put_word(out, third, 8);
    put_word(out, fourth, 8 + variables * plans)
}

// Copies `count` cells, one every `stride` from `from` on, to one every `step` from `at` on.
fn copy(
    out: &mut [u8],
    at: usize,
    step: usize,
    cells: &[u8],
    from: usize,
    stride: usize,
    count: usize,
)
    requires { (1 ≤ step) × Inside (length out.old) at step count × Inside (length cells.now) from stride count }
    ensures { Copied out.old at step cells.now from stride count out.new }
{
    for i in 0..count {
        out[at + i * step] = cells[from + i * stride];
    }
}

// Puts the columns of rows, one after another: each is written through, and its values lie a row apart.
fn put_columns(out: &mut [u8], at: usize, rows: &[u8], variables: usize, plans: usize)
    requires { (plans * variables ≤ length rows.now) × (at + variables * plans ≤ length out.old) }
    ensures { out.new ≡ placed out.old at (flat (transposed variables (listed_plans variables plans rows.now))) }
{
    for x in 0..variables {
        copy(out, at + x * plans, 1, rows, x, variables, plans);
    }
}

// Puts rows at the front, column by column: each is read through, and its values are written a row apart.
fn put_rows(out: &mut [u8], columns: &[u8], variables: usize, plans: usize)
    requires { (variables * plans ≤ length columns.now) × (plans * variables ≤ length out.old) }
    ensures { out.new ≡ placed out.old 0 (flat (transposed plans (listed_plans plans variables columns.now))) }
{
    for x in 0..variables {
        copy(out, x, variables, columns, x * plans, 1, plans);
    }
}

// Writes rows of n bytes as columns, behind a header of four numbers.
pub fn to_columns(n: usize, rows: &[u8], room: &mut [u8]) -> Result<usize, Question>
    ensures { CallColumns n rows.now room.old result room.new }
{
    question(n, rows, 8, room.len())?;
    let plans = rows.len() / n;
    let at = put_heading(room, n, plans);
    put_columns(room, at, rows, n, plans);
    Ok(at + rows.len())
}

// The 16-bit number at an offset, low byte first, and that it is one.
fn word_at(store: &[u8], at: usize) -> usize
    requires { at + 1 < length store.now }
    ensures { (result ≡ word_of store.now at) × (result < 65536) }
{
    wide(store[at]) + 256 * wide(store[at + 1])
}

// Question 23. The product is taken in 64 bits, without wrapping.
fn is_store(store: &[u8]) -> bool
    ensures { result ≡ is_store store.now }
{
    if store.len() < 8 || word_at(store, 4) != 8 || store.len() != word_at(store, 6) {
        return false;
    }
    let variables = word_at(store, 0);
    let plans = word_at(store, 2);
    store.len() == 8 + variables * plans
}

// Turns a store back into rows.
pub fn to_rows(store: &[u8], room: &mut [u8]) -> Result<usize, Question>
    ensures { CallRows store.now room.old result room.new }
{
    if !is_store(store) {
        return Err(Question::Columns);
    }
    let variables = word_at(store, 0);
    let plans = word_at(store, 2);
    let columns = &store[8..];
    question(variables, columns, 0, room.len())?;
    put_rows(room, columns, variables, plans);
    Ok(columns.len())
}
