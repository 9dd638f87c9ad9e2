// The answer of a join, piece by piece.
ghost use Rattle.std.specs.Prelude.{◌≡◌, [], ◌∷◌, ◌++◌, ◌+◌, ◌*◌, ◌^◌, ◌≤◌, ◌<◌, length, replicate};
ghost use Rattle.model.specs.Bytes.{four_bytes};
ghost use Rattle.model.specs.Lists.{at, tabulate};
ghost use Rattle.model.specs.Written.{Written};
ghost use Rattle.run_join.specs.Join.{heads_in, head_number, reach_place};
ghost use Rattle.run_join.specs.Calls.{told_by};
ghost use Rattle.export_join.specs.Joined.{eight_bytes, wides_of, path_bytes_at, stand_bytes, begin_bytes, kind_for, range_for};
ghost use Rattle.export_join.specs.Inner.Inside.{InsideHeads};

use run_join::Missing;
use run_join::steps::reach_place;
use wire::{four, put};

// Puts a number in eight bytes; answers the place after it.
fn eight(out: &mut [u8], at: usize, x: u64) -> usize
    requires { at + 8 ≤ length out.old }
    ensures { Written out.old at (eight_bytes x) out.new result }
{
    let low = (x % 4294967296) as usize;
    let high = (x / 4294967296) as usize;
    let next = four(out, at, low);
    four(out, next, high)
}

// The counts, from byte 24 on.
fn put_counts(out: &mut [u8], counts: [u64; 12])
    requires { length out.old ≡ 152 }
    ensures { Written out.old 24 (wides_of (tabulate 12 (at counts))) out.new 120 }
{
    let mut place = 24;
    for i in 0..12 {
        place = eight(out, place, counts[i]);
    }
}

// The kind and the sums.
pub fn put_sums(out: &mut [u8], kind: usize, plans: u64, nodes: u64, counts: [u64; 12])
    requires { (length out.old ≡ 152) × (kind < 2 ^ 32) }
    ensures { Written out.old 0 (four_bytes kind ++ four_bytes 0 ++ eight_bytes plans ++ eight_bytes nodes ++ wides_of
        (tabulate 12 (at counts))) out.new 120 }
{
    let first = four(out, 0, kind);
    let second = four(out, first, 0);
    let third = eight(out, second, plans);
    eight(out, third, nodes);
    put_counts(out, counts);
}

// The path at o of lent bytes.
fn put_path(out: &mut [u8], start: usize, l: &[u8], o: usize)
    requires { (start + 13 ≤ length out.old) × (o + 13 ≤ length l.now) }
    ensures { Written out.old start (path_bytes_at l.now o) out.new (start + 13) }
{
    put(out, start, &l[o..o + 13]);
}

// The path where one stands.
fn put_stand(out: &mut [u8], start: usize, l: &[u8], stand: Option<usize>)
    requires { (start + 13 ≤ length out.old) × (head_number stand ≤ heads_in l.now) }
    ensures { Written out.old start (stand_bytes l.now (head_number stand)) out.new (start + 13) }
{
    match stand {
        None => put_path(out, start, &[0; 13], 0),
        Some(k) => put_path(out, start, l, reach_place(l, k)),
    }
}

// The beginning of a head, else the last path.
fn put_begin(out: &mut [u8], start: usize, l: &[u8], near: Option<usize>)
    requires { (start + 13 ≤ length out.old) × (head_number near ≤ heads_in l.now) }
    ensures { Written out.old start (begin_bytes l.now (head_number near)) out.new (start + 13) }
{
    match near {
        None => put_path(out, start, &[1, 255, 0, 0, 0, 0, 0, 0, 0, 0, 0, 0, 0], 0),
        Some(k) => put_path(out, start, l, 115 * k + 76),
    }
}

// The missing range; zeros where there is none.
pub fn put_missing(out: &mut [u8], l: &[u8], missing: Option<Missing>)
    requires { (length out.old ≡ 152) × InsideHeads l.now missing }
    ensures { Written out.old 120 (range_for l.now (told_by missing)) out.new 146 }
{
    match missing {
        None => {
            put(out, 120, &[0; 26]);
        }
        Some(missing) => {
            put_stand(out, 120, l, missing.from);
            put_begin(out, 133, l, missing.upto);
        }
    }
}

// 1 joined, 2 missing.
pub fn kind(missing: Option<Missing>) -> usize
    ensures { result ≡ kind_for (told_by missing) }
{
    match missing {
        None => 1,
        Some(_) => 2,
    }
}

// Six zeros at the end.
pub fn put_zeros(out: &mut [u8])
    requires { length out.old ≡ 152 }
    ensures { Written out.old 146 (four_bytes 0 ++ 0 ∷ 0 ∷ []) out.new 152 }
{
    four(out, 146, 0);
    out[150] = 0;
    out[151] = 0;
}
