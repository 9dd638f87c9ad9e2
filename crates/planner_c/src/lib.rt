// The planner for C and Rust: planner's functions, exported. Each has the contract of the function that it calls (proofs/Tied).
#![tactic(auto)]

mod desks;
mod lists;
mod parts;
mod runs;

ghost use Rattle.std.specs.Prelude.{◌≡◌};
ghost use Rattle.export_filter.specs.FilterBytes.{CallBytes};
ghost use Rattle.export_report.specs.Report.{CallReport};

// The version: major * 65536 + minor * 256 + patch.
#[unsafe(no_mangle)]
pub extern "C" fn planner_version() -> u32
    ensures { result ≡ 65536 }
{
    planner::planner_version()
}

// The filter for increasing nogoods (paper 02, #102).
#[unsafe(no_mangle)]
pub extern "C" fn planner_filter(
    sets: &mut [u8],
    index: &[u8],
    equal: &[u8],
    not_equal: &[u8],
) -> u32
    ensures { CallBytes sets.old index.now equal.now not_equal.now result sets.new }
{
    planner::planner_filter(sets, index, equal, not_equal)
}

// The report on a sheet (paper 01, "The report"; paper 02, #104).
#[unsafe(no_mangle)]
pub extern "C" fn planner_report(input: &[u8], out: &mut [u8], answer: &mut [u8]) -> u32
    ensures { CallReport input.now out.old answer.old result out.new answer.new }
{
    planner::planner_report(input, out, answer)
}
