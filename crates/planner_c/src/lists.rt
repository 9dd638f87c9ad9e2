// Calls about lists of plans, the symmetry store and small sheets.
ghost use Rattle.export_columns.specs.Calls.{CallColumnsBytes, CallRowsBytes};
ghost use Rattle.export_merge.specs.Merged.{CallMerged};
ghost use Rattle.export_store.specs.Calls.{CallPutBytes, CallFetchBytes, CallDropBytes};
ghost use Rattle.export_small.specs.Calls.{CallSmallBytes};

// Rows to columns (paper 02, #103).
#[unsafe(no_mangle)]
pub extern "C" fn planner_columns(
    variables: u32,
    rows: &[u8],
    out: &mut [u8],
    answer: &mut [u8],
) -> u32
    ensures { CallColumnsBytes variables rows.now out.old answer.old result out.new answer.new }
{
    planner::lists::planner_columns(variables, rows, out, answer)
}

// And back.
#[unsafe(no_mangle)]
pub extern "C" fn planner_rows(store: &[u8], out: &mut [u8], answer: &mut [u8]) -> u32
    ensures { CallRowsBytes store.now out.old answer.old result out.new answer.new }
{
    planner::lists::planner_rows(store, out, answer)
}

// One list from two (#106).
#[unsafe(no_mangle)]
pub extern "C" fn planner_merge<'a>(
    variables: u32,
    pairs: &[u8],
    first: &'a [u8],
    second: &'a [u8],
    out: &mut [u8],
    answer: &mut [u8],
) -> u32
    ensures { CallMerged variables pairs.now first.now second.now out.old answer.old result
        out.new answer.new }
{
    planner::lists::planner_merge(variables, pairs, first, second, out, answer)
}

// The symmetry store (#110): puts a table in place of the one there.
#[unsafe(no_mangle)]
pub extern "C" fn planner_store_put(
    store: &mut [u8],
    owner: u32,
    key: u8,
    table: &[u8],
    answer: &mut [u8],
) -> u32
    ensures { CallPutBytes store.old owner key table.now answer.old result store.new answer.new }
{
    planner::lists::planner_store_put(store, owner, key, table, answer)
}

// Copies a table to the front of the room.
#[unsafe(no_mangle)]
pub extern "C" fn planner_store_fetch(
    store: &[u8],
    owner: u32,
    key: u8,
    room: &mut [u8],
    answer: &mut [u8],
) -> u32
    ensures { CallFetchBytes store.now owner key room.old answer.old result room.new answer.new }
{
    planner::lists::planner_store_fetch(store, owner, key, room, answer)
}

// Removes a table.
#[unsafe(no_mangle)]
pub extern "C" fn planner_store_drop(
    store: &mut [u8],
    owner: u32,
    key: u8,
    answer: &mut [u8],
) -> u32
    ensures { CallDropBytes store.old owner key answer.old result store.new answer.new }
{
    planner::lists::planner_store_drop(store, owner, key, answer)
}

// The small sheet at a position (#114).
#[unsafe(no_mangle)]
pub extern "C" fn planner_small_sheet(k: u32, out: &mut [u8], answer: &mut [u8]) -> u32
    ensures { CallSmallBytes k out.old answer.old result out.new answer.new }
{
    planner::lists::planner_small_sheet(k, out, answer)
}
