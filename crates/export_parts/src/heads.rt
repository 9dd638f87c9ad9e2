// The head of a part, piece by piece.
ghost use Rattle.std.specs.Prelude.{◌≡◌, ◌++◌, ◌+◌, ◌^◌, ◌≤◌, ◌<◌, length, take};
ghost use Rattle.model.specs.Lists.{at, tabulate};
ghost use Rattle.model.specs.Written.{Written};
ghost use Rattle.run_state.specs.Meaning.{ending_of};
ghost use Rattle.wire.specs.Wire.{three_numbers};
ghost use Rattle.export_run.specs.Run.{ending_bytes};
ghost use Rattle.export_run.specs.Inner.Inner.{Counted};
ghost use Rattle.export_counts.specs.Inner.Inner.{Twelve};
ghost use Rattle.export_counts.specs.Tallied.{numbers_of};
ghost use Rattle.export_parts.specs.Head.{name_bytes, path_bytes};

use crate::digests::digest;
use export_counts::numbers;
use run_state::Ending;
use wire::four;

// Three numbers and twelve counts.
fn put_figures(out: &mut [u8], kind: usize, plans: usize, nodes: usize, counts: [u32; 12])
    requires { (length out.old ≡ 115) × (kind < 2 ^ 32) × (plans < 2 ^ 32) × (nodes < 2 ^ 32) × Twelve counts }
    ensures { Written out.old 0 (three_numbers kind plans nodes ++ numbers_of counts) out.new 60 }
{
    let first = four(out, 0, kind);
    let second = four(out, first, plans);
    let third = four(out, second, nodes);
    numbers(out, third, counts);
}

// The ending and the counts.
pub fn put_ending(out: &mut [u8], e: Ending, counts: [u32; 12])
    requires { (length out.old ≡ 115) × Counted (ending_of e) × Twelve counts }
    ensures { Written out.old 0 (ending_bytes (ending_of e) ++ numbers_of counts) out.new 60 }
{
    match e {
        Ending::Finished(plans, nodes) => put_figures(out, 1, plans, nodes, counts),
        Ending::Spent(plans, nodes) => put_figures(out, 2, plans, nodes, counts),
        Ending::Full(plans, nodes) => put_figures(out, 3, plans, nodes, counts),
    }
}

// The name of the problem.
pub fn put_name(out: &mut [u8], sheet: &[u8], pairs: &[u8], block: &[u8])
    requires { length out.old ≡ 115 }
    ensures { Written out.old 60 (name_bytes sheet.now pairs.now block.now) out.new 76 }
{
    let second = four(out, 60, digest(sheet, 1000003));
    let third = four(out, second, digest(sheet, 65599));
    let fourth = four(out, third, digest(pairs, 1000003));
    four(out, fourth, digest(block, 1000003));
}

// The value at an index of the first n of a path, 0 behind them.
fn value_at(path: &[u8], n: usize, i: usize) -> u8
    ensures { result ≡ at (take n path.now) i }
{
    if i < n.min(path.len()) { path[i] } else { 0 }
}

// Twelve values of the first n of a path.
fn put_values(out: &mut [u8], start: usize, path: &[u8], n: usize)
    requires { start + 12 ≤ length out.old }
    ensures { Written out.old start (tabulate 12 (at (take n path.now))) out.new (start + 12) }
{
    for i in 0..12 {
        out[start + i] = value_at(path, n, i);
    }
}

// The first n values of a path, as a path.
fn put_path(out: &mut [u8], start: usize, path: &[u8], n: usize)
    requires { start + 13 ≤ length out.old }
    ensures { Written out.old start (path_bytes (take n path.now)) out.new (start + 13) }
{
    let kept = n.min(path.len()).min(12);
    out[start] = kept as u8;
    put_values(out, start + 1, path, n);
}

// The range, and where the part stands: the first n values of `last`.
pub fn put_paths(out: &mut [u8], from: &[u8], upto: &[u8], last: &[u8], n: usize)
    requires { length out.old ≡ 115 }
    ensures { Written out.old 76 (path_bytes from.now ++ path_bytes upto.now ++ path_bytes
        (take n last.now)) out.new 115 }
{
    put_path(out, 76, from, from.len());
    put_path(out, 89, upto, upto.len());
    put_path(out, 102, last, n);
}
