// Questions 2 to 7, on the header.
ghost use Rattle.std.specs.Prelude.{◌≤◌, ◌≡◌, leb};
ghost use Rattle.model.specs.Lists.{both};
ghost use Rattle.model.specs.Refusals.{verdict_from_question};
ghost use Rattle.model.specs.Sheet.{offsets_fit, header_verdict};
ghost use Rattle.reader.specs.Inner.Read.{stated};
ghost use Rattle.sheet.specs.Meaning.{Answers};

use model::refusals::Question;
use reader::Header;

fn within(x: usize, low: usize, high: usize) -> bool
    ensures { result ≡ both (leb low x) (leb x high) }
{
    low <= x && x <= high
}

// The offsets: 16, then the end of the initial sets, then one between that and the length.
fn offsets_fit(h: Header) -> bool
    requires { h.variables ≤ 12 }
    ensures { result ≡ offsets_fit (stated h) }
{
    h.first == 16 && h.second == 16 + 2 * h.variables && within(h.third, h.second, h.size)
}

// The header of a sheet of so many bytes, which passed question 1.
pub fn ask(h: Header, bytes: usize) -> Result<(), Question>
    requires { 16 ≤ bytes }
    ensures { Answers (header_verdict (stated h) bytes) (verdict_from_question result) }
{
    if !within(h.variables, 1, 12) {
        return Err(Question::Variables);
    }
    if !within(h.values, 1, 16) {
        return Err(Question::Values);
    }
    if 32 < h.constraints {
        return Err(Question::Constraints);
    }
    if 16 < h.symmetries {
        return Err(Question::Symmetries);
    }
    if h.size != bytes {
        return Err(Question::SheetLength);
    }
    if !offsets_fit(h) {
        return Err(Question::Offsets);
    }
    Ok(())
}
