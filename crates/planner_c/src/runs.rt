// Calls about runs.
ghost use Rattle.export_run.specs.Calls.{CallCode, CallExported};
ghost use Rattle.export_lent.specs.Calls.{CallQuestionCode, CallRunBytes};
ghost use Rattle.export_enough.specs.Calls.{CallEnoughBytes};
ghost use Rattle.export_closed.specs.Calls.{CallClosedBytes};
ghost use Rattle.export_families.specs.Families.{CallFigured};

// The questions to a sheet.
#[unsafe(no_mangle)]
pub extern "C" fn planner_question(sheet: &[u8]) -> u32
    ensures { CallCode sheet.now result }
{
    planner::runs::planner_question(sheet)
}

// The run of paper 01.
#[unsafe(no_mangle)]
pub extern "C" fn planner_run(sheet: &[u8], limit: u32, list: &mut [u8], answer: &mut [u8]) -> u32
    ensures { CallExported sheet.now limit list.old answer.old result list.new answer.new }
{
    planner::runs::planner_run(sheet, limit, list, answer)
}

// The questions of a run that is lent pairs and a block (paper 02, #108 and #111).
#[unsafe(no_mangle)]
pub extern "C" fn planner_question_lent(sheet: &[u8], pairs: &[u8], block: &[u8]) -> u32
    ensures { CallQuestionCode sheet.now pairs.now block.now result }
{
    planner::runs::planner_question_lent(sheet, pairs, block)
}

// Such a run, with its nodes by place (#107).
#[unsafe(no_mangle)]
pub extern "C" fn planner_run_lent(
    sheet: &[u8],
    pairs: &[u8],
    block: &[u8],
    limit: u32,
    list: &mut [u8],
    answer: &mut [u8],
) -> u32
    ensures { CallRunBytes sheet.now pairs.now block.now limit list.old answer.old result
        list.new answer.new }
{
    planner::runs::planner_run_lent(sheet, pairs, block, limit, list, answer)
}

// Are there at least so many plans (#101)?
#[unsafe(no_mangle)]
pub extern "C" fn planner_at_least(
    sheet: &[u8],
    pairs: &[u8],
    block: &[u8],
    plans: u32,
    limit: u32,
    answer: &mut [u8],
) -> u32
    ensures { CallEnoughBytes sheet.now pairs.now block.now plans limit answer.old result answer.new }
{
    planner::runs::planner_at_least(sheet, pairs, block, plans, limit, answer)
}

// Whether the exchanges are closed (#112).
#[unsafe(no_mangle)]
pub extern "C" fn planner_closed(sheet: &[u8], pairs: &[u8], block: &[u8], answer: &mut [u8]) -> u32
    ensures { CallClosedBytes sheet.now pairs.now block.now answer.old result answer.new }
{
    planner::runs::planner_closed(sheet, pairs, block, answer)
}

// The number of families (#104).
#[unsafe(no_mangle)]
pub extern "C" fn planner_families(
    sheet: &[u8],
    pairs: &[u8],
    block: &[u8],
    limit: u32,
    answer: &mut [u8],
) -> u32
    ensures { CallFigured sheet.now pairs.now block.now limit answer.old result answer.new }
{
    planner::runs::planner_families(sheet, pairs, block, limit, answer)
}
