// A run of paper 01 on a sheet alone, with its answer in lent bytes. A refusal's number and item are those of the papers.
#![tactic(auto)]

ghost use Rattle.export_run.specs.Calls.{CallExported};

use export_run::ending;
use wire::{WRONG_LENGTH, refusal_code};

// Runs the search on a sheet, with a limit of nodes; plans go to the front of the list. The answer has 12 bytes, three numbers of four
// bytes, low byte first: 1 finished, 2 spent, 3 full, then plans and nodes. Returns 0, or the refusal as one number, or 255 times 256
// where the answer has not 12 bytes; list and answer are then as they came.
pub fn run(sheet: &[u8], limit: u32, list: &mut [u8], answer: &mut [u8]) -> u32
    ensures { CallExported sheet.now limit list.old answer.old result list.new answer.new }
{
    if answer.len() != 12 {
        return WRONG_LENGTH;
    }
    match run::run(sheet, limit, list) {
        Ok(e) => {
            ending(answer, e);
            0
        }
        Err(refusal) => refusal_code(refusal),
    }
}
