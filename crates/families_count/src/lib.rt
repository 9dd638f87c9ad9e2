// The number of families on a sheet, or a dash (paper 02, #104): a run without symmetries lists all solutions, whose families are counted. The sheet is
// compiled once, and the arrays serve every run on it and the count.
#![tactic(auto)]

ghost use Rattle.std.specs.Prelude.{◌≡◌, List, ℕ, Ok, length, replicate};
ghost use Rattle.model.specs.Problem.{Problem};
ghost use Rattle.arrays.specs.Inner.Places.{WIDE};
ghost use Rattle.run_state.specs.Meaning.{tally_in};
ghost use Rattle.run_state.specs.Inner.Cut.{stop_of};
ghost use Rattle.run_input.specs.Inner.Compile.{AskedLent};
ghost use Rattle.sheet.specs.Inner.Form.{Compilation};
ghost use Rattle.families_figure.specs.Figure.{report_figure, families_lent};
ghost use Rattle.families_count.specs.Told.{counted_lent, told, figure_of, means};
ghost use Rattle.families_count.specs.Inner.Held.{Roomy, Runs, Ran, Put, Whole, Fresh, Listed, RunTold};

use arrays::{
    IMAGES, Images, NUMBERS, Numbers, PLANS, STACK, SUPPORTS, SYMMETRIES, Stack, Supports, TABLES,
    Tables, VARIABLES, WIDE, WORK, Wide, Work,
};
use model::refusals::Refusal;
use run_state::{Cut, Ending};
use run_tree::CountedPart;

// The run of a report, its figure, none for the dash, and the number of variables, 0 after a refusal.
#[derive(Clone, Copy, Debug, PartialEq, Eq)]
pub struct ReportRun {
    pub answer: Result<Ending, Refusal>,
    pub figure: Option<usize>,
    pub variables: usize,
}

// Room for 4,096 plans of 12 values.
pub fn plan_room() -> [u8; 49152]
    ensures { result ≡ replicate 49152 0 }
{
    [0; 49152]
}

// Puts the images of the pairs under all symmetries of a run whose questions are passed, and turns the arrays into its settling order; how many symmetries.
fn put_images(
    pairs: &[u8],
    block: &[u8],
    numbers: &mut Numbers,
    supports: &mut Supports,
    images: &Images,
    order: &[u8; 16],
    wide: &mut Wide,
) -> usize
    requires { ((b : List ℕ) × AskedLent b pairs.now block.now numbers.old supports.old images.now order.now (Ok tt)) ×
        (length wide.old ≡ WIDE) }
    ensures { (b : List ℕ) → AskedLent b pairs.now block.now numbers.old supports.old
        images.now order.now (Ok tt) → Put b pairs.now block.now numbers.new supports.new
        wide.new result × (length wide.new ≡ WIDE) }
{
    arrays_block::widen(images, wide);
    let symmetries = arrays_block::put_images(block, numbers, wide);
    numbers[SYMMETRIES] = symmetries as u64;
    if pairs.len() != 0 {
        arrays_order::reorder(order, numbers, supports, wide);
    }
    symmetries
}

// The run of the problem in the arrays, which has no block, with room for 4,096 plans: its rows go by position, and the compiled problem stays.
fn run_arrays(
    stack: &mut Stack,
    work: &mut Work,
    supports: &Supports,
    tables: &mut Tables,
    numbers: &mut Numbers,
    images: &Images,
    limit: u32,
    list: &mut [u8],
) -> CountedPart
    requires { (p : Problem) × Runs p stack.old work.old supports.now tables.old numbers.old images.now list.old }
    ensures { (p : Problem) → Runs p stack.old work.old supports.now tables.old numbers.old
        images.now list.old → Ran p limit numbers.old list.old stack.new work.new
        tables.new numbers.new list.new (tally_in result.tally) (stop_of result.stop) }
{
    let mut order = [0u8; 16];
    run_task::by_position(&mut order);
    run_task::put_bounds(numbers, limit as u64, 4096);
    let node = run_search::begin(stack, work, supports, tables, numbers, images, &order, 0, 1);
    run_search::walk_tree(stack, work, supports, tables, numbers, list, node)
}

// The families of the problem in the arrays, whose symmetries have their images: the run without symmetries, which reads no images, and where it is finished
// the count.
fn figure(
    stack: &mut Stack,
    work: &mut Work,
    supports: &Supports,
    tables: &mut Tables,
    numbers: &mut Numbers,
    images: &[u8],
    n: usize,
    symmetries: usize,
    limit: u32,
    list: &mut [u8],
) -> Option<usize>
    requires { (b : List ℕ) × (pairs : List ℕ) × (block : List ℕ) × Whole b pairs block symmetries stack.old work.old supports.now tables.old
        numbers.old images.now × Roomy b n list.old }
    ensures { (b pairs block : List ℕ) → Whole b pairs block symmetries stack.old work.old supports.now
        tables.old numbers.old images.now → Roomy b n list.old → told (figure_of result) ≡ told
        (families_lent b pairs block limit (length list.old)) }
{
    numbers[SYMMETRIES] = 0;
    work[PLANS] = 0;
    let none = [0u8; IMAGES];
    let part = run_arrays(stack, work, supports, tables, numbers, &none, limit, list);
    if part.stop.is_err() {
        return None;
    }
    let solutions = work[PLANS] as usize;
    Some(families::families(list, images, n, symmetries, solutions))
}

// The same with room of its own.
fn counted(
    stack: &mut Stack,
    work: &mut Work,
    supports: &Supports,
    tables: &mut Tables,
    numbers: &mut Numbers,
    images: &[u8],
    symmetries: usize,
    limit: u32,
) -> Option<usize>
    requires { (b : List ℕ) × (pairs : List ℕ) × (block : List ℕ) × Whole b pairs block symmetries stack.old work.old supports.now tables.old
        numbers.old images.now }
    ensures { (b pairs block : List ℕ) → Whole b pairs block symmetries stack.old work.old supports.now
        tables.old numbers.old images.now → told (figure_of result) ≡ counted_lent b pairs block limit }
{
    let n = numbers[VARIABLES] as usize;
    let used = 4096 * n;
    let mut list = plan_room();
    figure(
        stack,
        work,
        supports,
        tables,
        numbers,
        images,
        n,
        symmetries,
        limit,
        &mut list[..used],
    )
}

// The families of a run that is lent a sheet, pairs and a block, where it and the bare run, both with this node limit and room for 4,096 plans, are
// finished.
pub fn families(
    sheet: &[u8],
    pairs: &[u8],
    block: &[u8],
    limit: u32,
) -> Result<Option<usize>, Refusal>
    ensures { means result ≡ counted_lent sheet.now pairs.now block.now limit }
{
    let mut stack = [0u16; STACK];
    let mut work = [0u64; WORK];
    let mut supports = [0u16; SUPPORTS];
    let mut tables = [0u16; TABLES];
    let mut numbers = [0u64; NUMBERS];
    let mut images = [0u8; IMAGES];
    let mut order = [0u8; 16];
    let asked = run_input::ask(
        sheet,
        pairs,
        block,
        &mut numbers,
        &mut supports,
        &mut images,
        &mut order,
    );
    asked?;
    let mut wide = [0u8; WIDE];
    let symmetries = put_images(
        pairs,
        block,
        &mut numbers,
        &mut supports,
        &images,
        &order,
        &mut wide,
    );
    Ok(counted(
        &mut stack,
        &mut work,
        &supports,
        &mut tables,
        &mut numbers,
        &wide,
        symmetries,
        limit,
    ))
}

// The figure of a report whose run stopped so. Without symmetries its plans are the families, and there is no second run.
fn report_figure(
    stack: &mut Stack,
    work: &mut Work,
    supports: &Supports,
    tables: &mut Tables,
    numbers: &mut Numbers,
    images: &[u8],
    stop: Result<(), Cut>,
    limit: u32,
) -> Option<usize>
    requires { (b : List ℕ) × Listed b limit stack.old work.old supports.now tables.old numbers.old images.now (stop_of stop) }
    ensures { (b : List ℕ) → Listed b limit stack.old work.old supports.now tables.old
        numbers.old images.now (stop_of stop) → told (figure_of result) ≡ told (report_figure b limit) }
{
    if stop.is_err() {
        return None;
    }
    let symmetries = numbers[SYMMETRIES] as usize;
    if symmetries == 0 {
        return Some(work[PLANS] as usize);
    }
    counted(
        stack, work, supports, tables, numbers, images, symmetries, limit,
    )
}

// The run of a report and its figure, on the arrays of its sheet; the plans go to the front of the list.
fn report_arrays(
    stack: &mut Stack,
    work: &mut Work,
    supports: &Supports,
    tables: &mut Tables,
    numbers: &mut Numbers,
    images: &Images,
    limit: u32,
    list: &mut [u8],
) -> ReportRun
    requires { ((b : List ℕ) × Compilation b numbers.old supports.now images.now (Ok tt)) × Fresh stack.old work.old tables.old ×
        (length list.old ≡ 49152) }
    ensures { (b : List ℕ) → Compilation b numbers.old supports.now images.now (Ok tt) → RunTold b limit
        list.old result list.new }
{
    let variables = numbers[VARIABLES] as usize;
    let used = 4096 * variables;
    let part = run_arrays(
        stack,
        work,
        supports,
        tables,
        numbers,
        images,
        limit,
        &mut list[..used],
    );
    let tally = part.tally;
    let stop = part.stop;
    let ending = run::answered(work, tally.nodes, stop);
    let figure = report_figure(stack, work, supports, tables, numbers, images, stop, limit);
    ReportRun {
        answer: Ok(ending),
        figure,
        variables,
    }
}

// The run of a report with its figure, and the plans at the front of a list that is lent whole (`plan_room`), cut to room for 4,096.
pub fn report_run(sheet: &[u8], limit: u32, list: &mut [u8]) -> ReportRun
    requires { length list.old ≡ 49152 }
    ensures { RunTold sheet.now limit list.old result list.new }
{
    let mut stack = [0u16; STACK];
    let mut work = [0u64; WORK];
    let mut supports = [0u16; SUPPORTS];
    let mut tables = [0u16; TABLES];
    let mut numbers = [0u64; NUMBERS];
    let mut images = [0u8; IMAGES];
    match sheet::compile(sheet, &mut numbers, &mut supports, &mut images) {
        Ok(()) => report_arrays(
            &mut stack,
            &mut work,
            &supports,
            &mut tables,
            &mut numbers,
            &images,
            limit,
            list,
        ),
        Err(refusal) => ReportRun {
            answer: Err(refusal),
            figure: None,
            variables: 0,
        },
    }
}
