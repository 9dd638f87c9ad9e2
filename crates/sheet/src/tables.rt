// Questions 15 and 16 to each table of symmetries, and the images of the pairs.
ghost use Rattle.std.specs.Prelude.{◌≡◌, true};
ghost use Rattle.model.specs.Sheet.{header_of, problem_of, permutes_pairs, symmetries_verdict};
ghost use Rattle.sheet_table.specs.Inner.Table.{TableAt, table_of};
ghost use Rattle.model.specs.Refusals.{verdict_from};
ghost use Rattle.sheet.specs.Inner.Form.{Formed};
ghost use Rattle.sheet.specs.Inner.Decoding.{Decodable, Decoded, Tabled, TablesDecoded};
ghost use Rattle.reader.specs.Inner.Read.{stated};

use arrays::{Images, Numbers, Supports};
use model::refusals::Refusal;
use reader::{Header, read_word};
use sheet_table::pair_code;

pub fn ask(sheet: &[u8], h: Header, numbers: &Numbers, supports: &Supports) -> Result<(), Refusal>
    requires { Formed sheet.now numbers.now supports.now × (stated h ≡ header_of sheet.now) }
    ensures { verdict_from result ≡ symmetries_verdict (problem_of sheet.now) 0 (problem_of sheet.now).symmetries }
{
    let g = h.symmetries;
    let size = 2 * (h.variables * h.values);
    let mut at = h.third;
    for e in 0..g {
        sheet_symmetries::table_question(sheet, at, numbers, supports).map_err(
            move |question| Refusal { question, item: e },
        )?;
        at += size;
    }
    Ok(())
}

// The images of a table of pair numbers, 192 bytes from a base on.
fn decode(sheet: &[u8], from: usize, count: usize, d: usize, base: usize, images: &mut Images)
    requires { Decodable sheet.now from count d base images.old }
    ensures { Decoded sheet.now from count d base images.old images.new }
{
    for q in 0..count {
        let y = read_word(sheet, from + 2 * q);
        images[base + pair_code(q, d)] = pair_code(y, d) as u8;
    }
}

// Question 15 to the table at an offset, where it was not asked before.
fn permuted(sheet: &[u8], from: usize, numbers: &Numbers, asked: bool) -> bool
    requires { TableAt (problem_of sheet.now) sheet.now from numbers.now ×
        (asked ≡ true → permutes_pairs (problem_of sheet.now) (table_of (problem_of sheet.now) sheet.now from) ≡ true) }
    ensures { result ≡ permutes_pairs (problem_of sheet.now) (table_of (problem_of sheet.now) sheet.now from) }
{
    if asked {
        return true;
    }
    sheet_table::permutes(sheet, from, numbers)
}

// Whether all tables pass question 15, and their images. Where it was asked before, with yes for an answer, it is not asked again.
pub fn decode_all(
    sheet: &[u8],
    h: Header,
    numbers: &Numbers,
    asked: bool,
    images: &mut Images,
) -> bool
    requires { Tabled sheet.now numbers.now asked × (stated h ≡ header_of sheet.now) }
    ensures { TablesDecoded sheet.now images.new result }
{
    let g = h.symmetries;
    let d = h.values;
    let count = h.variables * d;
    let mut from = h.third;
    for e in 0..g {
        if !permuted(sheet, from, numbers, asked) {
            return false;
        }
        decode(sheet, from, count, d, 192 * e, images);
        from += 2 * count;
    }
    true
}
