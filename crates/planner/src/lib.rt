// The planner for callers: functions on numbers and byte slices. Each hands its call to the crate that proves it; planner_c exports it.
#![tactic(auto)]

pub mod desks;
pub mod lists;
pub mod parts;
pub mod runs;

ghost use Rattle.std.specs.Prelude.{◌≡◌};
ghost use Rattle.export_filter.specs.FilterBytes.{CallBytes};
ghost use Rattle.export_report.specs.Report.{CallReport};

// The version: major * 65536 + minor * 256 + patch.
pub fn planner_version() -> u32
    ensures { result ≡ 65536 }
{
    export_version::version()
}

// The filter for increasing nogoods (paper 02, #102).
pub fn planner_filter(sets: &mut [u8], index: &[u8], equal: &[u8], not_equal: &[u8]) -> u32
    ensures { CallBytes sets.old index.now equal.now not_equal.now result sets.new }
{
    export_filter::filter(sets, index, equal, not_equal)
}

// The report on a sheet (paper 01, "The report"; paper 02, #104).
pub fn planner_report(input: &[u8], out: &mut [u8], answer: &mut [u8]) -> u32
    ensures { CallReport input.now out.old answer.old result out.new answer.new }
{
    export_report::write_report(input, out, answer)
}
