// The run of a slot: going on with it, and putting down where it stands then.
ghost use Rattle.std.specs.Prelude.{◌≡◌, true, ℕ, ◌+◌, ◌-◌, ◌*◌, ◌/◌, ◌^◌, ◌≤◌, ◌<◌, min, length};
ghost use Rattle.model.specs.Lists.{at};
ghost use Rattle.model.specs.Run.{Ending, nodes_in};
ghost use Rattle.model.specs.Written.{placed};
ghost use Rattle.arrays.specs.Inner.Places.{WORK};
ghost use Rattle.run_cut.specs.Parts.{added};
ghost use Rattle.run_state.specs.Meaning.{tally_in};
ghost use Rattle.run_state.specs.Inner.Walk.{stop_in};
ghost use Rattle.run_state.specs.Inner.Cut.{stop_of};
ghost use Rattle.desk.specs.Queue.{Job, waits, standing_after, size, QUANTUM};
ghost use Rattle.desk.specs.Inner.Places.{COUNTS, SHEET, SLOT};
ghost use Rattle.desk.specs.Inner.Layout.{slot_of, standing_byte, state_bytes, count_bytes};
ghost use Rattle.desk_turns.specs.Inner.Served.{PartDone, Shows, ServedAt};

use arrays::{LAST, NUMBERS, PLANS, STACK, SUPPORTS, TABLES, WORK, Work};
use desk::{
    COUNTS, DEPTH, LENGTH, LIMIT, LIST, LIST_PLANS, NODES, SHEET, SHEET_BYTES, SLOT, STANDING,
    STATE, bounded, byte, counts_at, nodes_at, read_long,
};
use run_state::Cut;
use run_tree::CountedPart;
use wire::{four, place};

// The nodes of a turn.
const QUANTUM: usize = 64;

// How a slot stands after its turns, and how many it took.
#[derive(Clone, Copy, Debug, PartialEq, Eq)]
pub struct Served {
    pub standing: u8,
    pub plans: usize,
    pub nodes: usize,
    pub turns: usize,
}

// How many of the nodes left so many turns may make.
fn share(left: usize, turns: u32) -> u32
    requires { left < 2 ^ 32 }
    ensures { result ≡ min left (QUANTUM * turns) }
{
    let most = QUANTUM * turns as usize;
    left.min(most) as u32
}

// How many turns made so many nodes.
fn turns_for(nodes: u32) -> usize
    ensures { result ≡ 1 + (nodes - 1) / QUANTUM }
{
    1 + (nodes as usize).saturating_sub(1) / QUANTUM
}

// How a run stands that stopped with so many nodes: 0 running, 1 finished, 2 spent, 3 full.
fn standing_after(stop: Result<(), Cut>, made: usize, limit: usize) -> u8
    ensures { (e : Ending) → stop_of stop ≡ stop_in e → made ≡ nodes_in e → result ≡ standing_byte (standing_after limit e) }
{
    match stop {
        Ok(()) => 1,
        Err(Cut::Full) => 3,
        Err(Cut::Spent) if made < limit => 0,
        Err(Cut::Spent) => 2,
    }
}

// The bytes of a slot that say where its run stands, but for its counts.
fn run_bytes(standing: u8, made: usize, work: &Work) -> [u8; STATE]
    requires { (h : Job) × Shows h standing made work.now }
    ensures { (h : Job) → Shows h standing made work.now → result ≡ state_bytes h }
{
    let plans = work[PLANS];
    let last = work[LAST] as usize;
    let mut bytes = [0u8; STATE];
    bytes[0] = standing;
    four(&mut bytes, NODES - STANDING, made);
    bytes[desk::PLANS - STANDING] = (plans % 256) as u8;
    bytes[desk::PLANS + 1 - STANDING] = (plans / 256) as u8;
    bytes[DEPTH - STANDING] = last as u8;
    for i in 0..last {
        bytes[desk::LAST - STANDING + i] = work[i] as u8;
    }
    bytes
}

// Puts the counts of the slot at p: those before, and those of its last part.
fn put_counts(queue: &mut [u8], p: usize, before: [u32; 12], more: [u32; 12])
    requires { (p + SHEET ≤ length queue.old) × (length before ≡ 12) × (length more ≡ 12) × ((x : ℕ) → at before x + at more x < 2 ^ 32) }
    ensures { queue.new ≡ placed queue.old (p + COUNTS) (count_bytes (added before more)) }
{
    for x in 0..12 {
        let k = before[x] + more[x];
        four(queue, p + COUNTS + 4 * x, k as usize);
    }
}

// Goes on with the run of the slot at p by so many nodes at most; the plans go to its list, where it stands to `work`.
fn go_on(queue: &mut [u8], p: usize, more: u32, work: &mut Work) -> CountedPart
    requires { (p + SLOT ≤ length queue.old) × (length work.old ≡ WORK) }
    ensures { PartDone queue.old p more queue.new work.new (stop_of result.stop) (tally_in result.tally) }
{
    let mut stack = [0u16; STACK];
    let mut supports = [0u16; SUPPORTS];
    let mut tables = [0u16; TABLES];
    let mut numbers = [0u64; NUMBERS];
    let plans = bounded(queue, p + desk::PLANS, LIST_PLANS);
    let last = p + desk::LAST;
    let after = last + byte(queue, p + DEPTH, 12) as usize;
    run_resume::put_progress(work, plans, &queue[last..after]);
    let sheet = p + SHEET;
    let end = sheet + bounded(queue, p + LENGTH, SHEET_BYTES);
    let size = LIST_PLANS * bounded(queue, sheet, 12);
    let step = run_resume::prepare_again(
        &mut stack,
        work,
        &mut supports,
        &mut tables,
        &mut numbers,
        &queue[sheet..end],
        more,
        size,
    );
    let list = p + LIST;
    let behind = list + size;
    run_resume::go_on(
        &mut stack,
        work,
        &supports,
        &tables,
        &numbers,
        &mut queue[list..behind],
        step,
    )
}

// Gives slot k, whose run hasn't ended, up to so many turns at a stretch.
pub fn serve(queue: &mut [u8], k: usize, turns: u32) -> Served
    requires { (length queue.old ≡ size) × (k < 8) × (waits (slot_of queue.old k) ≡ true) × (1 ≤ turns) }
    ensures { ServedAt queue.old k turns queue.new result }
{
    let p = SLOT * k;
    let limit = read_long(queue, p + LIMIT);
    let made = nodes_at(queue, p);
    let before = counts_at(queue, p);
    let more = share(limit - made, turns);
    let mut work = [0u64; WORK];
    let part = go_on(queue, p, more, &mut work);
    let nodes = made + part.tally.nodes as usize;
    let standing = standing_after(part.stop, nodes, limit);
    place(&run_bytes(standing, nodes, &work), queue, p + STANDING);
    put_counts(queue, p, before, part.tally.counts);
    Served {
        standing,
        plans: work[PLANS] as usize,
        nodes,
        turns: turns_for(part.tally.nodes),
    }
}
