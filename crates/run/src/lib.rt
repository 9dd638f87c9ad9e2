// The runs (paper 01, paper 02): the questions, the search, and the answer.
#![tactic(auto)]

ghost use Rattle.std.specs.Prelude.{◌≡◌, Ok};
ghost use Rattle.run.specs.Meaning.{means, said_enough};
ghost use Rattle.run.specs.Calls.{CallRun, CallWith, CallLent, CallCounted, CallEnough};
ghost use Rattle.run.specs.Inner.Tasks.{enough_none, enough_for};
ghost use Rattle.run.specs.Inner.Whole.{Answered, Wanted};
ghost use Rattle.run_state.specs.{Meaning.ending_of, Inner.Cut.stop_of};

use arrays::{NUMBERS, PLANS, STACK, SUPPORTS, TABLES, WANTED, WORK, Work};
use model::refusals::Refusal;
use run_state::{Cut, Ending, Tally};

// Are there so many plans: yes, no, or spent before that is known; each carries the plans found and the nodes made.
#[derive(Clone, Copy, Debug, PartialEq, Eq)]
pub enum Enough {
    Yes(usize, usize),
    No(usize, usize),
    Spent(usize, usize),
}

// A run's answer, and what it counted.
#[derive(Clone, Copy, Debug, PartialEq, Eq)]
pub struct CountedRun {
    pub answer: Result<Ending, Refusal>,
    pub tally: Tally,
}

// The ending of a run that has stopped so, with the plans that stand in `work` and this many nodes.
pub fn answered(work: &Work, made: u32, stop: Result<(), Cut>) -> Ending
    ensures { Answered work.now made (stop_of stop) (ending_of result) }
{
    let plans = work[PLANS] as usize;
    let nodes = made as usize;
    match stop {
        Ok(()) => Ending::Finished(plans, nodes),
        Err(Cut::Spent) => Ending::Spent(plans, nodes),
        Err(Cut::Full) => Ending::Full(plans, nodes),
    }
}

// A run that is lent a sheet, pairs and a block (paper 02, #108 and #111) and counts its nodes in a tally that is lent: the questions first, then the
// search, with a node limit (the paper's allowance) and a list for the plans. The tally is set to nothing once the questions are passed; a refusal
// leaves it as it came.
pub fn run_lent(
    sheet: &[u8],
    pairs: &[u8],
    block: &[u8],
    limit: u32,
    list: &mut [u8],
    tally: &mut Tally,
) -> Result<Ending, Refusal>
    ensures { CallLent sheet.now pairs.now block.now limit list.old tally.old result
        list.new tally.new }
{
    let mut stack = [0u16; STACK];
    let mut work = [0u64; WORK];
    let mut supports = [0u16; SUPPORTS];
    let mut tables = [0u16; TABLES];
    let mut numbers = [0u64; NUMBERS];
    let stop = run_search::explore(
        &mut stack,
        &mut work,
        &mut supports,
        &mut tables,
        &mut numbers,
        sheet,
        pairs,
        block,
        limit,
        list,
        tally,
    )?;
    Ok(answered(&work, tally.nodes, stop))
}

// A run that counts up to one plan less than are asked for, with no list.
fn run_wanted(
    sheet: &[u8],
    pairs: &[u8],
    block: &[u8],
    limit: u32,
    wanted: u64,
) -> Result<Ending, Refusal>
    requires { wanted ≡ 0 → ⊥ }
    ensures { Wanted wanted sheet.now pairs.now block.now limit result }
{
    let mut stack = [0u16; STACK];
    let mut work = [0u64; WORK];
    let mut supports = [0u16; SUPPORTS];
    let mut tables = [0u16; TABLES];
    let mut numbers = [0u64; NUMBERS];
    let mut none = [0u8; 0];
    work[WANTED] = wanted;
    let node = run_search::prepare(
        &mut stack,
        &mut work,
        &mut supports,
        &mut tables,
        &mut numbers,
        sheet,
        pairs,
        block,
        limit,
        0,
    )?;
    let part = run_search::walk_tree(
        &mut stack, &mut work, &supports, &tables, &numbers, &mut none, node,
    );
    Ok(answered(&work, part.tally.nodes, part.stop))
}

// A run of paper 01, which is lent neither pairs nor a block.
pub fn run_with(
    sheet: &[u8],
    limit: u32,
    list: &mut [u8],
    tally: &mut Tally,
) -> Result<Ending, Refusal>
    ensures { CallWith sheet.now limit list.old tally.old result list.new tally.new }
{
    let none = [0u8; 0];
    run_lent(sheet, &none, &none, limit, list, tally)
}

// A run with a tally of its own, which begins at nothing and is handed out with the answer.
pub fn run_counted(
    sheet: &[u8],
    pairs: &[u8],
    block: &[u8],
    limit: u32,
    list: &mut [u8],
) -> CountedRun
    ensures { CallCounted sheet.now pairs.now block.now limit list.old result list.new }
{
    let mut tally = Tally::new();
    let answer = run_lent(sheet, pairs, block, limit, list, &mut tally);
    CountedRun { answer, tally }
}

// A run of paper 01 whose tally is not asked for.
pub fn run(sheet: &[u8], limit: u32, list: &mut [u8]) -> Result<Ending, Refusal>
    ensures { CallRun sheet.now limit list.old result list.new }
{
    let none = [0u8; 0];
    run_counted(sheet, &none, &none, limit, list).answer
}

// No plan is asked for: yes without a node, once the questions are passed.
fn asked_for_none(sheet: &[u8], pairs: &[u8], block: &[u8]) -> Result<Enough, Refusal>
    ensures { said_enough result ≡ enough_none sheet.now pairs.now block.now }
{
    run_input::question(sheet, pairs, block)?;
    Ok(Enough::Yes(0, 0))
}

// What a run says that counted up to one plan less than are asked for: where one more was found, yes.
fn judged(ending: Ending, m: usize) -> Enough
    ensures { said_enough (Ok result) ≡ enough_for (means (Ok ending)) m }
{
    match ending {
        Ending::Finished(plans, nodes) => Enough::No(plans, nodes),
        Ending::Spent(plans, nodes) => Enough::Spent(plans, nodes),
        Ending::Full(_, nodes) => Enough::Yes(m, nodes),
    }
}

// Are there at least m plans (paper 02, #101)? No list is lent.
pub fn at_least(
    sheet: &[u8],
    pairs: &[u8],
    block: &[u8],
    m: usize,
    limit: u32,
) -> Result<Enough, Refusal>
    ensures { CallEnough sheet.now pairs.now block.now limit m result }
{
    if m == 0 {
        return asked_for_none(sheet, pairs, block);
    }
    let ending = run_wanted(sheet, pairs, block, limit, m as u64)?;
    Ok(judged(ending, m))
}
