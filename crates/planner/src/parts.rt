// A run in parts: crates export_parts and export_join say what the calls answer and leave.
ghost use Rattle.export_parts.specs.Parts.{CallPartBytes};
ghost use Rattle.export_join.specs.Joined.{CallJoinBytes};

// The nodes of a run that come after one path and not after another.
pub fn planner_run_part(
    sheet: &[u8],
    pairs: &[u8],
    block: &[u8],
    from: &[u8],
    upto: &[u8],
    limit: u32,
    list: &mut [u8],
    answer: &mut [u8],
) -> u32
    ensures { CallPartBytes sheet.now pairs.now block.now from.now upto.now limit
        list.old answer.old result list.new answer.new }
{
    export_parts::run_part(sheet, pairs, block, from, upto, limit, list, answer)
}

// The heads of parts joined.
pub fn planner_join(heads: &[u8], answer: &mut [u8]) -> u32
    ensures { CallJoinBytes heads.now answer.old result answer.new }
{
    export_join::join_heads(heads, answer)
}
