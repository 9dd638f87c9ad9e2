// A run in parts.
ghost use Rattle.export_parts.specs.Parts.{CallPartBytes};
ghost use Rattle.export_join.specs.Joined.{CallJoinBytes};

// The nodes of a run that come after one path and not after another.
#[unsafe(no_mangle)]
pub extern "C" fn planner_run_part(
    sheet: &[u8],
    pairs: &[u8],
    block: &[u8],
    from: &[u8],
    upto: &[u8],
    limit: u32,
    list: &mut [u8],
    answer: &mut [u8],
) -> u32
    ensures { CallPartBytes sheet.now pairs.now block.now from.now upto.now limit
        list.old answer.old result list.new answer.new }
{
    planner::parts::planner_run_part(sheet, pairs, block, from, upto, limit, list, answer)
}

// The heads of parts joined.
#[unsafe(no_mangle)]
pub extern "C" fn planner_join(heads: &[u8], answer: &mut [u8]) -> u32
    ensures { CallJoinBytes heads.now answer.old result answer.new }
{
    planner::parts::planner_join(heads, answer)
}
