// The questions of paper 01 put to a sheet, and the ending of a run in lent bytes. A refusal's number and item are those of the papers.
#![tactic(auto)]

ghost use Rattle.std.specs.Prelude.{◌≡◌, length};
ghost use Rattle.run_state.specs.Meaning.{ending_of};
ghost use Rattle.export_run.specs.Run.{ending_bytes};
ghost use Rattle.export_run.specs.Calls.{CallCode};
ghost use Rattle.export_run.specs.Inner.Inner.{Counted};

use run_state::Ending;
use wire::{refusal_code, three};

// Puts the questions to a sheet: 0 where it is accepted, else the number of the first "no" times 256, plus its item.
pub fn question(sheet: &[u8]) -> u32
    ensures { CallCode sheet.now result }
{
    match sheet::question(sheet) {
        Ok(()) => 0,
        Err(refusal) => refusal_code(refusal),
    }
}

// An ending as three numbers.
pub fn ending(out: &mut [u8], e: Ending)
    requires { (length out.old ≡ 12) × Counted (ending_of e) }
    ensures { out.new ≡ ending_bytes (ending_of e) }
{
    match e {
        Ending::Finished(plans, nodes) => three(out, 1, plans, nodes),
        Ending::Spent(plans, nodes) => three(out, 2, plans, nodes),
        Ending::Full(plans, nodes) => three(out, 3, plans, nodes),
    }
}
