// The walk along the tree (paper 01): to settle a variable is to try its values; to try a value is to settle the next variable.
#![tactic(auto)]

ghost use Rattle.std.specs.Prelude.{◌≡◌};
ghost use Rattle.model.specs.Problem.{Problem};
ghost use Rattle.model.specs.Run as Run;
ghost use Rattle.run_state.specs.Inner.Pair.{AtValues, AtValue, Walked, Entered, tried, lowest_tried};
ghost use Rattle.loans.specs.Inner.Slices.{SameSlice};
ghost use Rattle.run_state.specs.{Meaning.tally_in, Inner.Cut.cut_in, Inner.Cut.stop_of, Inner.Cut.step_of};
ghost use Rattle.run_tree.specs.Inner.Stopped.{number_of};

use arrays::{LAST, Numbers, Stack, Supports, Tables, VAIN, VARIABLES, Work};
use model::ValueSet;
use run_state::{Cut, Node, Tally};

// How a walk stopped: at its end, or where the run was cut short. It is one byte, which a Result<(), Cut> is not: with it the compiler makes a loop of
// the last call of `settle_variable`.
#[derive(Clone, Copy)]
enum Stop {
    All,
    Spent,
    Full,
}

impl Stop {
    // The run was cut short.
    fn by(cut: Cut) -> Self
        ensures { number_of result ≡ cut_in cut }
    {
        match cut {
            Cut::Spent => Stop::Spent,
            Cut::Full => Stop::Full,
        }
    }

    // What a caller outside the pair is told.
    fn told(self) -> Result<(), Cut>
        ensures { stop_of result ≡ number_of self }
    {
        match self {
            Stop::All => Ok(()),
            Stop::Spent => Err(Cut::Spent),
            Stop::Full => Err(Cut::Full),
        }
    }
}

// Makes the node of the lowest of the values m of variable k: a leaf where it is dead or its plan was listed, full where a plan has no room.
fn enter(
    stack: &mut Stack,
    work: &mut Work,
    supports: &Supports,
    tables: &Tables,
    numbers: &Numbers,
    list: &mut &mut [u8],
    k: usize,
    m: u16,
) -> Result<Node, Cut>
    requires { (p : Problem) × ((tally : Run.Tally) × AtValue p stack.old work.old supports.now tables.now numbers.now
        list.old.now tally k m) }
    ensures entered { (p : Problem) (tally : Run.Tally) → AtValue p stack.old work.old supports.now tables.now
        numbers.now list.old.now tally k m → Entered p stack.old work.old supports.now
        tables.now numbers.now list.old.now tally k m stack.new work.new
        list.new.now (step_of result) }
    ensures same_slice { SameSlice list.old list.new }
{
    let values = ValueSet { bits: m };
    let lowest = values.lowest();
    work[k] = lowest as u64;
    work[LAST] = (k + 1) as u64;
    if prune::child(stack, work, supports, tables, numbers, k) {
        return Ok(Node::Leaf);
    }
    if k + 1 == numbers[VARIABLES] as usize {
        run_state::list_plan(work, numbers, list)?;
        return Ok(Node::Leaf);
    }
    Ok(Node::Inner)
}

// Tries the values m of variable k, lowest first: walks along their nodes and those below them.
#[cycle(settle_try_value)]
fn settle_variable(
    stack: &mut Stack,
    work: &mut Work,
    supports: &Supports,
    tables: &Tables,
    numbers: &Numbers,
    list: &mut &mut [u8],
    tally: &mut Tally,
    k: usize,
    m: u16,
) -> Stop
    requires { (p : Problem) × AtValues p stack.old work.old supports.now tables.now numbers.now list.old.now (tally_in tally.old) k m }
    ensures walked { (p : Problem) → AtValues p stack.old work.old supports.now tables.now
        numbers.now list.old.now (tally_in tally.old) k m → Walked p (tried p work.old k m)
        stack.old work.old numbers.now list.old.now (tally_in tally.old) k stack.new
        work.new list.new.now (tally_in tally.new) (number_of result) }
    ensures same_slice { SameSlice list.old list.new }
{
    if m == 0 {
        return Stop::All;
    }
    if tally.nodes == run_state::limit(numbers) {
        return Stop::Spent;
    }
    match try_value(stack, work, supports, tables, numbers, list, tally, k, m) {
        Stop::All => {}
        stop => return stop,
    }
    settle_variable(
        stack,
        work,
        supports,
        tables,
        numbers,
        list,
        tally,
        k,
        run_state::rest(m),
    )
}

// Walks along the node of the lowest of the values m of variable k and those below it, which are the next variable's; those whose like the memo keeps are
// passed by.
#[cycle(settle_try_value)]
fn try_value(
    stack: &mut Stack,
    work: &mut Work,
    supports: &Supports,
    tables: &Tables,
    numbers: &Numbers,
    list: &mut &mut [u8],
    tally: &mut Tally,
    k: usize,
    m: u16,
) -> Stop
    requires { (p : Problem) × AtValue p stack.old work.old supports.now tables.now numbers.now list.old.now (tally_in tally.old) k m }
    ensures walked { (p : Problem) → AtValue p stack.old work.old supports.now tables.now
        numbers.now list.old.now (tally_in tally.old) k m → Walked p (lowest_tried p work.old k m)
        stack.old work.old numbers.now list.old.now (tally_in tally.old) k stack.new
        work.new list.new.now (tally_in tally.new) (number_of result) }
    ensures same_slice { SameSlice list.old list.new }
{
    let x = run_state::variable_at(numbers, k);
    tally.add_node(x);
    match enter(stack, work, supports, tables, numbers, list, k, m) {
        Ok(Node::Inner) => {}
        Ok(Node::Leaf) => return Stop::All,
        Err(cut) => return Stop::by(cut),
    }
    let d = k + 1;
    let all = run_state::candidates(stack, d);
    let turn = run_memo::turn(work, numbers, tally.nodes, d, all);
    if turn == 0 {
        return settle_variable(stack, work, supports, tables, numbers, list, tally, d, all);
    }
    let before = *tally;
    let place = run_memo::visit(
        stack,
        work,
        numbers,
        list,
        before,
        before,
        turn,
        0,
        d,
        Ok(()),
    );
    if place < VAIN {
        *tally = run_memo::grown(work, before, place);
        return Stop::All;
    }
    let stop = settle_variable(stack, work, supports, tables, numbers, list, tally, d, all);
    let after = *tally;
    run_memo::visit(
        stack,
        work,
        numbers,
        list,
        before,
        after,
        turn,
        place,
        d,
        stop.told(),
    );
    stop
}

// Walks along the nodes of the values m of variable k, lowest first, unless the run is cut short.
pub fn settle(
    stack: &mut Stack,
    work: &mut Work,
    supports: &Supports,
    tables: &Tables,
    numbers: &Numbers,
    list: &mut &mut [u8],
    tally: &mut Tally,
    k: usize,
    m: u16,
) -> Result<(), Cut>
    requires { (p : Problem) × AtValues p stack.old work.old supports.now tables.now numbers.now list.old.now (tally_in tally.old) k m }
    ensures walked { (p : Problem) → AtValues p stack.old work.old supports.now tables.now
        numbers.now list.old.now (tally_in tally.old) k m → Walked p (tried p work.old k m)
        stack.old work.old numbers.now list.old.now (tally_in tally.old) k stack.new
        work.new list.new.now (tally_in tally.new) (stop_of result) }
    ensures same_slice { SameSlice list.old list.new }
{
    settle_variable(stack, work, supports, tables, numbers, list, tally, k, m).told()
}

// How a part of a run stopped, and what was counted by then.
#[derive(Clone, Copy, Debug, PartialEq, Eq)]
pub struct CountedPart {
    pub stop: Result<(), Cut>,
    pub tally: Tally,
}

// Walks along the nodes of the values m of variable k, lowest first, in a run that has counted so far.
pub fn walk_counted(
    stack: &mut Stack,
    work: &mut Work,
    supports: &Supports,
    tables: &Tables,
    numbers: &Numbers,
    list: &mut [u8],
    before: Tally,
    k: usize,
    m: u16,
) -> CountedPart
    requires { (p : Problem) × AtValues p stack.old work.old supports.now tables.now numbers.now list.old (tally_in before) k m }
    ensures { (p : Problem) → AtValues p stack.old work.old supports.now tables.now
        numbers.now list.old (tally_in before) k m → Walked p (tried p work.old k m) stack.old
        work.old numbers.now list.old (tally_in before) k stack.new work.new list.new
        (tally_in result.tally) (stop_of result.stop) }
{
    // The list is lent as a field, since of a slice's reference that is a variable itself it isn't known what a callee leaves.
    let mut held = (list,);
    let sink = &mut held;
    let mut tally = before;
    let stop = settle(
        stack,
        work,
        supports,
        tables,
        numbers,
        &mut sink.0,
        &mut tally,
        k,
        m,
    );
    CountedPart { stop, tally }
}
