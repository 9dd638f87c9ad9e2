// A part of a run between two paths, lent a sheet, pairs and a block, with its answer in lent bytes. A refusal's number and item are those of the papers.
#![tactic(auto)]

mod digests;
mod heads;

ghost use Rattle.export_parts.specs.Parts.{CallPartBytes};

use crate::heads::{put_ending, put_name, put_paths};
use wire::{WRONG_LENGTH, refusal_code};

// The nodes after the path `from` and not after `upto`, with a limit of nodes; plans go to the front of the list. The answer has 115 bytes, the part's head.
// Returns 0, or the refusal, or, asked first, 255 times 256 where the answer has not 115 bytes; list and answer are then as they came.
pub fn run_part(
    sheet: &[u8],
    pairs: &[u8],
    block: &[u8],
    from: &[u8],
    upto: &[u8],
    limit: u32,
    list: &mut [u8],
    answer: &mut [u8],
) -> u32
    ensures { CallPartBytes sheet.now pairs.now block.now from.now upto.now limit
        list.old answer.old result list.new answer.new }
{
    if answer.len() != 115 {
        return WRONG_LENGTH;
    }
    let part = run_part::run_part(sheet, pairs, block, from, upto, limit, list);
    match part.answer {
        Err(refusal) => refusal_code(refusal),
        Ok(ending) => {
            put_ending(answer, ending, part.tally.counts);
            put_name(answer, sheet, pairs, block);
            put_paths(answer, from, upto, &part.last, part.length);
            0
        }
    }
}
