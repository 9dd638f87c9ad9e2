// Nodes by variable (paper 02, #107): an ending and the twelve counts as bytes.
#![tactic(auto)]

ghost use Rattle.std.specs.Prelude.{◌≡◌, ◌++◌, ◌+◌, ◌^◌, ◌≤◌, ◌<◌, length};
ghost use Rattle.model.specs.Written.{Written};
ghost use Rattle.run_state.specs.Meaning.{ending_of};
ghost use Rattle.wire.specs.Wire.{three_numbers};
ghost use Rattle.export_run.specs.Run.{ending_bytes};
ghost use Rattle.export_run.specs.Inner.Inner.{Counted};
ghost use Rattle.export_counts.specs.Inner.Inner.{Twelve};
ghost use Rattle.export_counts.specs.Tallied.{numbers_of};

use run_state::Ending;
use wire::four;

// Writes the counts from a place on.
pub fn numbers(out: &mut [u8], start: usize, counts: [u32; 12])
    requires { (start + 48 ≤ length out.old) × Twelve counts }
    ensures { Written out.old start (numbers_of counts) out.new (start + 48) }
{
    let mut at = start;
    for i in 0..12 {
        at = four(out, at, counts[i] as usize);
    }
}

fn told(out: &mut [u8], kind: usize, plans: usize, nodes: usize, counts: [u32; 12])
    requires { (length out.old ≡ 60) × (kind < 2 ^ 32) × (plans < 2 ^ 32) × (nodes < 2 ^ 32) × Twelve counts }
    ensures { out.new ≡ three_numbers kind plans nodes ++ numbers_of counts }
{
    let first = four(out, 0, kind);
    let second = four(out, first, plans);
    let third = four(out, second, nodes);
    numbers(out, third, counts);
}

// An ending as three numbers, then the counts.
pub fn ending(out: &mut [u8], e: Ending, counts: [u32; 12])
    requires { (length out.old ≡ 60) × Counted (ending_of e) × Twelve counts }
    ensures { out.new ≡ ending_bytes (ending_of e) ++ numbers_of counts }
{
    match e {
        Ending::Finished(plans, nodes) => told(out, 1, plans, nodes, counts),
        Ending::Spent(plans, nodes) => told(out, 2, plans, nodes, counts),
        Ending::Full(plans, nodes) => told(out, 3, plans, nodes, counts),
    }
}
