// Reading a sheet: the number at an offset of a slice, and a reader that holds the lent sheet and its present offset and moves along.
// Its methods are thin: each takes it apart, and the work is in functions on the slice and the number.
#![tactic(auto)]

ghost use Rattle.std.specs.Prelude.{◌≡◌, ◌+◌, ◌≤◌, ◌<◌, ◌^◌, length};
ghost use Rattle.model.specs.Sheet.{«word» as word_of, header_of};
ghost use Rattle.reader.specs.Inner.Read.{stated};

use model::wide;

// The eight numbers of the header.
#[derive(Clone, Copy, Debug, PartialEq, Eq)]
pub struct Header {
    pub variables: usize,
    pub values: usize,
    pub constraints: usize,
    pub symmetries: usize,
    pub first: usize,
    pub second: usize,
    pub third: usize,
    pub size: usize,
}

#[derive(Clone, Copy)]
struct Reader<'a> {
    sheet: &'a [u8],
    at: usize,
}

// How many bytes a number has.
const BYTES: usize = 2;

// The 16-bit number at an offset, low byte first.
fn word_at(sheet: &[u8], at: usize) -> usize
    requires { at + 1 < length sheet.now }
    ensures { result ≡ word_of sheet.now at }
{
    wide(sheet[at]) + 256 * wide(sheet[at + 1])
}

impl<'a> Reader<'a> {
    // A reader at an offset of a sheet.
    fn new(sheet: &'a [u8], at: usize) -> Reader<'a>
        ensures { (result.sheet ≡ sheet.entry) × (result.at ≡ at) }
    {
        Reader { sheet, at }
    }

    // The number at the reader's offset.
    fn word(self) -> usize
        requires { self.at + 1 < length self.sheet.now }
        ensures { result ≡ word_of self.entry.sheet.now self.entry.at }
    {
        word_at(self.sheet, self.at)
    }

    // The reader after that number.
    fn next(self) -> Reader<'a>
        requires { self.at + 2 < 2 ^ 64 }
        ensures { (result.sheet ≡ self.entry.sheet) × (result.at ≡ self.entry.at + 2) }
    {
        Reader {
            sheet: self.sheet,
            at: self.at + BYTES,
        }
    }
}

// The number at an offset.
pub fn read_word(sheet: &[u8], at: usize) -> usize
    requires { at + 1 < length sheet.now }
    ensures { result ≡ word_of sheet.now at }
{
    Reader::new(sheet, at).word()
}

// The header, by one reader that goes on from number to number.
pub fn read_header(sheet: &[u8]) -> Header
    requires { 16 ≤ length sheet.now }
    ensures { stated result ≡ header_of sheet.now }
{
    let mut r = Reader::new(sheet, 0);
    let variables = r.word();
    r = r.next();
    let values = r.word();
    r = r.next();
    let constraints = r.word();
    r = r.next();
    let symmetries = r.word();
    r = r.next();
    let first = r.word();
    r = r.next();
    let second = r.word();
    r = r.next();
    let third = r.word();
    r = r.next();
    let size = r.word();
    Header {
        variables,
        values,
        constraints,
        symmetries,
        first,
        second,
        third,
        size,
    }
}
