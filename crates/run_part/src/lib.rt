// A part of a run that is lent a sheet, pairs and a block: the nodes of its tree that come after one path and not after another, with a limit and a list of
// its own. Parts that join are the run (crate run_ranges).
#![tactic(auto)]

ghost use Rattle.std.specs.Prelude.{◌≡◌, ℕ, ◌≤◌, ◌<◌};
ghost use Rattle.model.specs.Lists.{at};
ghost use Rattle.run_part.specs.Calls.{CallPart};
ghost use Rattle.arrays.specs.Inner.Places.{LAST};
ghost use Rattle.run_between.specs.Inner.Steps.{Valued};

use arrays::{LAST, NUMBERS, STACK, SUPPORTS, TABLES, WORK, Work};
use model::refusals::Refusal;
use run_state::{Ending, Tally};

// What a part answers, what it counted, and where it stands: the last node that it made, else where it began, as many of the values as the length says.
#[derive(Clone, Copy, Debug, PartialEq, Eq)]
pub struct PartRun {
    pub answer: Result<Ending, Refusal>,
    pub tally: Tally,
    pub length: usize,
    pub last: [u8; 12],
}

// What a part has come to whose last node stands in `work`.
fn stands(work: &Work, answer: Result<Ending, Refusal>, tally: Tally) -> PartRun
    requires { (at work.now LAST ≤ 12) × ((i : ℕ) → i < at work.now LAST → at work.now i < 256) }
    ensures { (result.answer ≡ answer) × (result.tally ≡ tally) × (result.length ≡ at work.now LAST) × Valued work.now result.last }
{
    PartRun {
        answer,
        tally,
        length: work[LAST] as usize,
        last: run_between::last_values(work),
    }
}

// The part of the run whose nodes come after `from` and not after `upto`.
pub fn run_part(
    sheet: &[u8],
    pairs: &[u8],
    block: &[u8],
    from: &[u8],
    upto: &[u8],
    limit: u32,
    list: &mut [u8],
) -> PartRun
    ensures { CallPart sheet.now pairs.now block.now from.now upto.now limit
        list.old result list.new }
{
    let mut stack = [0u16; STACK];
    let mut work = [0u64; WORK];
    let mut supports = [0u16; SUPPORTS];
    let mut tables = [0u16; TABLES];
    let mut numbers = [0u64; NUMBERS];
    let prepared = run_search::prepare(
        &mut stack,
        &mut work,
        &mut supports,
        &mut tables,
        &mut numbers,
        sheet,
        pairs,
        block,
        limit,
        list.len(),
    );
    run_between::put_path(&mut work, from);
    let node = match prepared {
        Ok(node) => node,
        Err(refusal) => return stands(&work, Err(refusal), Tally::new()),
    };
    let part = run_between::walk_part(
        &mut stack, &mut work, &supports, &tables, &numbers, list, from, upto, node,
    );
    let ending = run::answered(&work, part.tally.nodes, part.stop);
    stands(&work, Ok(ending), part.tally)
}
