// The report on a sheet for callers. The answer has 12 bytes, three numbers of four bytes, low byte first: 1, the report's length, 0.
#![tactic(auto)]

mod text;

ghost use Rattle.std.specs.Prelude.{take};
ghost use Rattle.model.specs.Sheet.{verdict_of};
ghost use Rattle.report.specs.Report.{report_for};
ghost use Rattle.report.specs.Inner.Text.{Fitted};
ghost use Rattle.export_report.specs.Report.{CallReport};

use wire::{WRONG_LENGTH, three};

// The report on an input, of which the first 65,536 bytes are the sheet.
fn input_report(input: &[u8], out: &mut [u8]) -> usize
    ensures { Fitted out.old (report_for (verdict_of (take 65536 input.now)) (take 65536 input.now))
        out.new result }
{
    if input.len() <= 65536 {
        return text::sheet_report(input, out);
    }
    text::sheet_report(&input[..65536], out)
}

// The text is longer than the lent buffer: refusal 22.
const NO_ROOM: u32 = 22 * 256;

// Writes the report on an input to the front of the buffer. Returns 0; or 22 times 256 where the buffer is shorter than the report, and then every
// buffer is as it came; or, asked first, 255 times 256 where the answer has not 12 bytes.
pub fn write_report(input: &[u8], out: &mut [u8], answer: &mut [u8]) -> u32
    ensures { CallReport input.now out.old answer.old result out.new answer.new }
{
    if answer.len() != 12 {
        return WRONG_LENGTH;
    }
    let length = input_report(input, out);
    if out.len() < length {
        return NO_ROOM;
    }
    three(answer, 1, length, 0);
    0
}
