// A run that goes on from its last node (paper 02, #113), on arrays that are lent: where it stands is put in `work`, the compiled problem is made again, and
// the nodes after the last one are walked along, with a tally from nothing.
#![tactic(auto)]

ghost use Rattle.std.specs.Prelude.{◌≡◌, ℕ, ◌≤◌, length};
ghost use Rattle.model.specs.Problem.{Problem};
ghost use Rattle.arrays.specs.Inner.Places.{WORK};
ghost use Rattle.run_cut.specs.Parts.{Progress};
ghost use Rattle.run_state.specs.{Meaning.tally_in, Inner.Cut.stop_of, Inner.Cut.node_in};
ghost use Rattle.run_resume.specs.Inner.Resume.{Put, Fresh, PreparedAgain, GoesOn, GoneOn};

use arrays::{IMAGES, LAST, Numbers, PLANS, Stack, Supports, Tables, VARIABLES, Work};
use run_state::Node;
use run_tree::CountedPart;

// Puts where a run stands in `work`: the plans listed, and the last node made.
pub fn put_progress(work: &mut Work, plans: usize, last: &[u8])
    requires { (length work.old ≡ WORK) × (length last.now ≤ 12) }
    ensures { Put plans last.now work.old work.new }
{
    work[PLANS] = plans as u64;
    run_between::put_path(work, last);
}

// Makes all that the search reads of a sheet again, for so many nodes more and a list of this size: a leaf where there are no nodes (a sheet that questions 1
// to 15 refuse counts as one without). Question 16 is not asked.
pub fn prepare_again(
    stack: &mut Stack,
    work: &mut Work,
    supports: &mut Supports,
    tables: &mut Tables,
    numbers: &mut Numbers,
    sheet: &[u8],
    more: u32,
    size: usize,
) -> Node
    requires { Fresh stack.old work.old supports.old tables.old numbers.old }
    ensures { PreparedAgain sheet.now more size work.old stack.new work.new supports.new
        tables.new numbers.new (node_in result) }
{
    let mut images = [0u8; IMAGES];
    if sheet::recompile(sheet, numbers, supports, &mut images) {
        let n = numbers[VARIABLES] as usize;
        run_task::put_bounds(numbers, more as u64, (size / n) as u64);
        let mut order = [0u8; 16];
        run_task::by_position(&mut order);
        return run_search::begin(
            stack, work, supports, tables, numbers, &images, &order, 0, 0,
        );
    }
    Node::Leaf
}

// Goes on with a run from its last node, whose values and plans stand in `work`: how it stopped, and what it counted in this part. The node is what
// `prepare_again` answered.
pub fn go_on(
    stack: &mut Stack,
    work: &mut Work,
    supports: &Supports,
    tables: &Tables,
    numbers: &Numbers,
    list: &mut [u8],
    node: Node,
) -> CountedPart
    requires { (p : Problem) × (s : Progress) × (limit : ℕ) × (room : ℕ) × GoesOn p s limit room stack.old work.old supports.now tables.now
        numbers.now list.old (node_in node) }
    ensures { (p : Problem) (s : Progress) (limit room : ℕ) → GoesOn p s limit room stack.old work.old supports.now
        tables.now numbers.now list.old (node_in node) → GoneOn p s limit room list.old work.new
        list.new (stop_of result.stop) (tally_in result.tally) }
{
    let last = run_between::last_values(work);
    let length = work[LAST] as usize;
    let open = [255u8; 1];
    run_between::walk_part(
        stack,
        work,
        supports,
        tables,
        numbers,
        list,
        &last[..length],
        &open,
        node,
    )
}
