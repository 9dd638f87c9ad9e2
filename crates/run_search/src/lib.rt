// The run on arrays that are lent: what is made of a sheet, pairs and a block before the search, and the search.
#![tactic(auto)]

ghost use Rattle.std.specs.Prelude.{◌≡◌, List, ℕ, MatchResult, length};
ghost use Rattle.model.specs.Problem.{Problem};
ghost use Rattle.arrays.specs.Inner.Places.{DEEPER};
ghost use Rattle.run_state.specs.Inner.Walk.{no_nodes};
ghost use Rattle.run_state.specs.Inner.Pair.{AtPrefix};
ghost use Rattle.run_state.specs.{Meaning.tally_in, Inner.Cut.stop_of, Inner.Cut.node_in};
ghost use Rattle.run_search.specs.Inner.Begun.{Laid, Writable, Begun, Ended};
ghost use Rattle.run_search.specs.Inner.Prepared.{Blank, Prepared, Refuses};
ghost use Rattle.run_search.specs.Inner.Explored.{Explored};

use arrays::{ASKS, IMAGES, Images, Numbers, Stack, Supports, Tables, VARIABLES, Work};
use model::refusals::Refusal;
use run_state::{Cut, Node, Tally};
use run_tree::CountedPart;

// Makes all that the search reads of the compiled problem, whose limit and room stand among the numbers: a leaf where the empty prefix is dead.
// `order` has the sheet's variable at each position, `positions` those of the block's variables; the memo is asked unless `asks` is 0.
pub fn begin(
    stack: &mut Stack,
    work: &mut Work,
    supports: &Supports,
    tables: &mut Tables,
    numbers: &mut Numbers,
    images: &Images,
    order: &[u8; 16],
    positions: u64,
    asks: u64,
) -> Node
    requires { ((p : Problem) × (own : Problem) × (by : List ℕ) × Laid p own by numbers.old supports.now images.now order.now positions asks)
        × Writable stack.old work.old tables.old }
    ensures { (p own : Problem) (by : List ℕ) → Laid p own by numbers.old supports.now images.now
        order.now positions asks → Begun p by numbers.old work.old stack.new work.new
        supports.now tables.new numbers.new (node_in result) }
{
    run_memo::clear(work);
    run_task::put_order(numbers, order);
    run_task::put_block(numbers, positions);
    numbers[ASKS] = asks;
    arrays_tables::index(numbers, supports, images, tables);
    if prune::root(stack, work, supports, tables, numbers) {
        Node::Leaf
    } else {
        Node::Inner
    }
}

// Walks along the tree, with nothing counted, where nodes are below the empty prefix.
pub fn walk_tree(
    stack: &mut Stack,
    work: &mut Work,
    supports: &Supports,
    tables: &Tables,
    numbers: &Numbers,
    list: &mut [u8],
    node: Node,
) -> CountedPart
    requires { node_in node ≡ DEEPER → (p : Problem) × AtPrefix p stack.old work.old supports.now tables.now numbers.now list.old no_nodes 0 }
    ensures { Ended stack.old work.old supports.now tables.now numbers.now
        list.old (node_in node) stack.new work.new list.new (tally_in result.tally) (stop_of result.stop) }
{
    let tally = Tally::new();
    if let Node::Leaf = node {
        return CountedPart {
            stop: Ok(()),
            tally,
        };
    }
    let m = run_state::candidates(stack, 0);
    run_tree::walk_counted(stack, work, supports, tables, numbers, list, tally, 0, m)
}

// Puts the questions to what is lent, and makes of it all that the search reads: a leaf where the empty prefix is dead.
pub fn prepare(
    stack: &mut Stack,
    work: &mut Work,
    supports: &mut Supports,
    tables: &mut Tables,
    numbers: &mut Numbers,
    sheet: &[u8],
    pairs: &[u8],
    block: &[u8],
    limit: u32,
    size: usize,
) -> Result<Node, Refusal>
    requires { Blank stack.old work.old supports.old tables.old numbers.old size }
    ensures { MatchResult result (λ node. Prepared work.old sheet.now pairs.now block.now limit size stack.new work.new supports.new
        tables.new numbers.new (node_in node)) (Refuses sheet.now pairs.now block.now) }
{
    let mut images = [0u8; IMAGES];
    let mut order = [0u8; 16];
    run_input::compile(
        sheet,
        pairs,
        block,
        numbers,
        supports,
        &mut images,
        &mut order,
    )?;
    let n = numbers[VARIABLES] as usize;
    let room = run_task::room_for(work, n, size);
    run_task::put_bounds(numbers, limit as u64, room);
    let positions = arrays_block::positions(block, n, &order);
    let node = begin(
        stack, work, supports, tables, numbers, &images, &order, positions, 1,
    );
    Ok(node)
}

// The run on arrays that are lent: the questions, then the search, and how it stopped.
pub fn explore(
    stack: &mut Stack,
    work: &mut Work,
    supports: &mut Supports,
    tables: &mut Tables,
    numbers: &mut Numbers,
    sheet: &[u8],
    pairs: &[u8],
    block: &[u8],
    limit: u32,
    list: &mut [u8],
    tally: &mut Tally,
) -> Result<Result<(), Cut>, Refusal>
    requires { Blank stack.old work.old supports.old tables.old numbers.old (length list.old) }
    ensures { MatchResult result (λ stop. Explored work.old sheet.now pairs.now block.now limit list.old
        work.new list.new (tally_in tally.new) (stop_of stop)) (λ refusal. Refuses sheet.now pairs.now block.now refusal × (list.new ≡ list.old)
        × (tally.new ≡ tally.old)) }
{
    let node = prepare(
        stack,
        work,
        supports,
        tables,
        numbers,
        sheet,
        pairs,
        block,
        limit,
        list.len(),
    )?;
    tally.reset();
    if let Node::Leaf = node {
        return Ok(Ok(()));
    }
    let m = run_state::candidates(stack, 0);
    // The list is lent as a field, since of a slice's reference that is a variable itself it isn't known what a callee leaves.
    let mut held = (list,);
    let sink = &mut held;
    let stop = run_tree::settle(
        stack,
        work,
        supports,
        tables,
        numbers,
        &mut sink.0,
        tally,
        0,
        m,
    );
    Ok(stop)
}
