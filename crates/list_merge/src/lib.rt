// One list from two (paper 02, #106). `means` in specs/Meaning.antt says what the answers mean.
#![tactic(auto)]

ghost use Rattle.std.specs.Prelude.{◌≡◌, true, ℕ, ◌+◌, ◌≤◌, ◌<◌, ◌%◌, leb, ltb, length, take, drop, get_or};
ghost use mathlib.Core.List.{Memᴰ};
ghost use Rattle.model.specs.Lists.{choose, earlier};
ghost use Rattle.model.specs.Room.{rows_in, outcome_of, room_after};
ghost use Rattle.model.specs.Written.{placed, Written};
ghost use Rattle.order.specs.Reordered.{earlier_by};
ghost use Rattle.list_merge.specs.Merge.{ascends, merged_by, from_first, next_row, whole_lists, ordered_verdict};
ghost use Rattle.list_merge.specs.Meaning.{means};
ghost use Rattle.list_merge.specs.Calls.{CallMerge};
ghost use Rattle.list_merge.specs.Inner.Inner.{Places, Kind, way_of, Number, eight_of, word_of, Long, Decides, Rests, Sorts, stands, taken_first};
ghost use Rattle.list_merge.specs.Inner.Inner.{taken_second, Walked};

use model::refusals::Question;
use model::wide;
use std::cmp::Ordering;

// A row's first eight bytes as one number, which is asked for equality alone.
fn eight(row: &[u8]) -> usize
    requires { 8 ≤ length row.now }
    ensures { Number row.now (eight_of row.now) result }
{
    wide(row[0])
        + wide(row[1]) * 256
        + wide(row[2]) * 65536
        + wide(row[3]) * 16777216
        + wide(row[4]) * 4294967296
        + wide(row[5]) * 1099511627776
        + wide(row[6]) * 281474976710656
        + wide(row[7]) * 72057594037927936
}

// Four bytes of a row as one number, the first byte highest.
fn word(row: &[u8], at: usize) -> usize
    requires { at + 4 ≤ length row.now }
    ensures { Number row.now (word_of row.now at) result }
{
    wide(row[at]) * 16777216
        + wide(row[at + 1]) * 65536
        + wide(row[at + 2]) * 256
        + wide(row[at + 3])
}

// The place of the four bytes that decide between two rows of n.
fn deciding(n: usize, a: &[u8], b: &[u8]) -> usize
    requires { Long n a.now b.now }
    ensures { Decides n a.now b.now result }
{
    if eight(a) == eight(b) {
        return n - 4;
    }
    if word(a, 0) == word(b, 0) {
        return 4;
    }
    0
}

// Compares two rows of n by place.
fn by_words(n: usize, a: &[u8], b: &[u8]) -> Ordering
    requires { Long n a.now b.now }
    ensures { result ≡ way_of (earlier a.now b.now) (earlier b.now a.now) }
{
    let at = deciding(n, a, b);
    word(a, at).cmp(&word(b, at))
}

// A row's byte at a place of the order.
fn at_place(order: &[u8], i: usize, row: &[u8]) -> usize
    requires { (i < length order.now) × (get_or order.now i 0 < length row.now) }
    ensures { result ≡ get_or row.now (get_or order.now i 0) 0 }
{
    let x = order[i] as usize;
    wide(row[x])
}

// Compares two rows in an order of their places, two places a turn.
fn by_places(order: &[u8], a: &[u8], b: &[u8]) -> Ordering
    requires { (x : ℕ) → Memᴰ x order.now → (x < length a.now) × (x < length b.now) }
    ensures { result ≡ way_of (earlier_by order.now a.now b.now)
        (earlier_by order.now b.now a.now) }
{
    let mut i = 0;
    while i + 1 < order.len() {
        let x = at_place(order, i, a);
        let y = at_place(order, i, b);
        if x != y {
            return x.cmp(&y);
        }
        let z = at_place(order, i + 1, a);
        let w = at_place(order, i + 1, b);
        if z != w {
            return z.cmp(&w);
        }
        i += 2;
    }
    if i < order.len() {
        return at_place(order, i, a).cmp(&at_place(order, i, b));
    }
    Ordering::Equal
}

// Whether rows in this order are compared by place, and long enough for words.
fn by_place(n: usize, order: &[u8]) -> bool
    requires { (length order.now ≡ n) × (n ≤ 12) }
    ensures { Kind n order.now result }
{
    if n < 8 {
        return false;
    }
    for i in 0..order.len() {
        if order[i] as usize != i {
            return false;
        }
    }
    true
}

// How the second list's next row stands to the first's. A list at its end comes after the other.
fn stand(n: usize, plain: bool, order: &[u8], first: &[u8], second: &[u8]) -> Ordering
    requires { Rests n order.now first.now second.now × Kind n order.now plain }
    ensures { result ≡ stands n order.now first.now second.now }
{
    if second.len() == 0 {
        return Ordering::Greater;
    }
    if first.len() == 0 {
        return Ordering::Less;
    }
    if plain {
        return by_words(n, &second[..n], &first[..n]);
    }
    by_places(order, &second[..n], &first[..n])
}

// The next row: the front of what is left of one of the two lists, and not a copy. For equal rows it is the first list's, and at the end
// the first's empty rest. `way` is how the second's next row stands to the first's in the order.
fn next<'a>(n: usize, order: &[u8], way: Ordering, first: &'a [u8], second: &'a [u8]) -> &'a [u8]
    requires { Rests n order.now first.now second.now × (way ≡ stands n order.now first.now second.now) }
    ensures result_value { result.now ≡ next_row n order.now first.now second.now }
    ensures ref_ptr_value { result.ref_ptr ≡ choose (from_first n order.now first.now second.now) first.entry.ref_ptr second.entry.ref_ptr }
{
    match way {
        Ordering::Less => &second[..n],
        Ordering::Equal => &first[..n],
        Ordering::Greater => {
            if first.len() == 0 {
                return first;
            }
            &first[..n]
        }
    }
}

// How many bytes the next row takes of the first list, and of the second.
fn past_first(n: usize, way: Ordering) -> usize
    ensures { result ≡ taken_first n way }
{
    match way {
        Ordering::Less => 0,
        Ordering::Equal => n,
        Ordering::Greater => n,
    }
}

fn past_second(width: usize, way: Ordering) -> usize
    ensures { result ≡ taken_second width way }
{
    match way {
        Ordering::Less => width,
        Ordering::Equal => width,
        Ordering::Greater => 0,
    }
}

fn put_four(out: &mut [u8], to: usize, row: &[u8], from: usize)
    requires { (to + 4 ≤ length out.old) × (from + 4 ≤ length row.now) }
    ensures { out.new ≡ placed out.old to (take 4 (drop from row.now)) }
{
    let a = row[from];
    let b = row[from + 1];
    let c = row[from + 2];
    let d = row[from + 3];
    out[to] = a;
    out[to + 1] = b;
    out[to + 2] = c;
    out[to + 3] = d;
}

// Byte by byte: with a copy of any length in it, as the library's, the walk takes twice as long for rows of 8 to 12.
fn put_short(out: &mut [u8], at: usize, row: &[u8]) -> usize
    requires { at + length row.now ≤ length out.old }
    ensures { Written out.old at row.now out.new result }
{
    for (i, byte) in row.iter().enumerate() {
        out[at + i] = *byte;
    }
    at + row.len()
}

// Writes a row, four bytes at a time: of a row of 8 to 12, the first four, the next four and the last four.
fn put_row(out: &mut [u8], at: usize, row: &[u8]) -> usize
    requires { (at + length row.now ≤ length out.old) × (length row.now ≤ 12) }
    ensures { Written out.old at row.now out.new result }
{
    let n = row.len();
    if n < 8 {
        return put_short(out, at, row);
    }
    put_four(out, at, row, 0);
    put_four(out, at + 4, row, 4);
    put_four(out, at + n - 4, row, n - 4);
    at + n
}

// Walks the merged list: it is written, or only counted up to the room.
fn walk<'a>(
    n: usize,
    plain: bool,
    order: &[u8],
    first: &'a [u8],
    second: &'a [u8],
    out: &mut [u8],
    writes: bool,
) -> Result<usize, Question>
    requires { Sorts n order.now first.now second.now × Kind n order.now plain ×
        (writes ≡ true → length (merged_by n order.now first.now second.now) ≤ length out.old) }
    ensures { Walked writes out.old (merged_by n order.now first.now second.now) out.new
        (means result) }
{
    let mut a = first;
    let mut b = second;
    let mut at = 0;
    loop {
        let way = stand(n, plain, order, a, b);
        let row = next(n, order, way, a, b);
        if row.len() == 0 {
            return Ok(at);
        }
        if writes {
            put_row(out, at, row);
        } else {
            if out.len() - at < n {
                return Err(Question::MergeRoom);
            }
        }
        let i = past_first(n, way);
        let j = past_second(n, way);
        a = &a[i..];
        b = &b[j..];
        at += n;
    }
}

// Whether the room might be short of both lists together.
fn short(room: usize, first: usize, second: usize) -> bool
    ensures { result ≡ ltb room (first + second) }
{
    room < first || room - first < second
}

// Question 27: whether the merged list fits. It is counted only where the room might be short.
fn fits<'a>(
    n: usize,
    plain: bool,
    order: &[u8],
    first: &'a [u8],
    second: &'a [u8],
    room: &mut [u8],
) -> bool
    requires { Sorts n order.now first.now second.now × Kind n order.now plain }
    ensures { (result ≡ leb (length (merged_by n order.now first.now second.now)) (length room.old)) ×
        (room.new ≡ room.old) }
{
    if !short(room.len(), first.len(), second.len()) {
        return true;
    }
    walk(n, plain, order, first, second, room, false).is_ok()
}

// Questions 25 and 26: whether the rows of a list ascend in the order.
fn ascend(n: usize, plain: bool, order: &[u8], list: &[u8]) -> bool
    requires { (1 ≤ n) × Places n order.now × (length list.now % n ≡ 0) × Kind n order.now plain }
    ensures { result ≡ ascends order.now (rows_in n list.now) }
{
    let mut rest = list;
    while n < rest.len() {
        let after = &rest[n..];
        let way = if plain {
            by_words(n, &rest[..n], &after[..n])
        } else {
            by_places(order, &rest[..n], &after[..n])
        };
        match way {
            Ordering::Less => {}
            Ordering::Equal => return false,
            Ordering::Greater => return false,
        }
        rest = after;
    }
    true
}

// Merges lists of whole rows in an order of the places.
fn merge_by<'a>(
    n: usize,
    order: &[u8],
    first: &'a [u8],
    second: &'a [u8],
    room: &mut [u8],
) -> Result<usize, Question>
    requires { Rests n order.now first.now second.now × (length order.now ≡ n) × (n ≤ 12) }
    ensures result_value { means result ≡ outcome_of (ordered_verdict n order.now first.now second.now (length room.old))
        (merged_by n order.now first.now second.now) }
    ensures room_after { room.new ≡ room_after (ordered_verdict n order.now first.now second.now
        (length room.old)) (merged_by n order.now first.now second.now) room.old }
{
    let plain = by_place(n, order);
    if !ascend(n, plain, order, first) {
        return Err(Question::FirstAscends);
    }
    if !ascend(n, plain, order, second) {
        return Err(Question::SecondAscends);
    }
    if !fits(n, plain, order, first, second, room) {
        return Err(Question::MergeRoom);
    }
    walk(n, plain, order, first, second, room, true)
}

// Question 24: n is 1 to 12, and both lists are whole rows.
fn whole(n: usize, first: &[u8], second: &[u8]) -> bool
    ensures { result ≡ whole_lists n first.now second.now }
{
    if n < 1 || 12 < n || first.len() % n != 0 {
        return false;
    }
    second.len() % n == 0
}

// Merges two lists of rows of n bytes, in the settling order of the pairs.
pub fn merge<'a>(
    n: usize,
    pairs: &[u8],
    first: &'a [u8],
    second: &'a [u8],
    room: &mut [u8],
) -> Result<usize, Question>
    ensures { CallMerge n pairs.now first.now second.now room.old result room.new }
{
    if !whole(n, first, second) {
        return Err(Question::TwoLists);
    }
    let mut order = [0u8; 16];
    order::settling_order(n, pairs, &mut order)?;
    merge_by(n, &order[..n], first, second, room)
}
