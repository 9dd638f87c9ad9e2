// Calls that are lent a sheet, pairs and a block (paper 02, #108 and #111). Pairs: two bytes each, "this place before that place".
#![tactic(auto)]

ghost use Rattle.export_lent.specs.Calls.{CallQuestionCode, CallRunBytes};

use export_counts::ending;
use wire::{WRONG_LENGTH, refusal_code};

// Puts all questions of a run that is lent pairs and a block: 0, or the number of the first "no" times 256, plus its item.
pub fn question_lent(sheet: &[u8], pairs: &[u8], block: &[u8]) -> u32
    ensures { CallQuestionCode sheet.now pairs.now block.now result }
{
    match run_input::question(sheet, pairs, block) {
        Ok(()) => 0,
        Err(refusal) => refusal_code(refusal),
    }
}

// As planner_run, lent pairs and a block besides, and the answer has 60 bytes: kind, plans and nodes, then twelve numbers of four bytes, the nodes that
// settle each place. Returns 0, or the refusal, or, asked first, 255 times 256 where the answer has not 60 bytes; list and answer are then as they came.
pub fn run_lent(
    sheet: &[u8],
    pairs: &[u8],
    block: &[u8],
    limit: u32,
    list: &mut [u8],
    answer: &mut [u8],
) -> u32
    ensures { CallRunBytes sheet.now pairs.now block.now limit list.old answer.old result
        list.new answer.new }
{
    if answer.len() != 60 {
        return WRONG_LENGTH;
    }
    let r = run::run_counted(sheet, pairs, block, limit, list);
    match r.answer {
        Ok(e) => {
            ending(answer, e, r.tally.counts);
            0
        }
        Err(refused) => refusal_code(refused),
    }
}
