// The questions that are put to what is handed over (papers 01 and 02), each with its number, and the refusal by the first whose answer is no.
ghost use Rattle.std.specs.Prelude.{◌≡◌};
ghost use Rattle.model.specs.Refusals.{number_of};

#[derive(Clone, Copy, Debug, PartialEq, Eq)]
pub enum Question {
    // of a sheet
    Header,
    Variables,
    Values,
    Constraints,
    Symmetries,
    SheetLength,
    Offsets,
    InitialSet,
    ConstraintEnd,
    ConstraintSize,
    Scope,
    RowValues,
    RowOrder,
    TableLength,
    PairsPermuted,
    Respected,
    // of the sets and lists of the filter
    Sets,
    ListLengths,
    Entry,
    // of rows and columns, and of the room for what is written
    WholeRows,
    SmallValues,
    Room,
    Columns,
    // of a merge
    TwoLists,
    FirstAscends,
    SecondAscends,
    MergeRoom,
    // of pairs and a block
    WholePairs,
    PairPlaces,
    NoCircle,
    // of the store
    Owner,
    FreeSlot,
    TableSize,
    HeldKey,
    CopyRoom,
    // of a block
    Block,
    // of the desk
    FreeSeat,
    HeldSeat,
    // of the small sheets
    Position,
    SheetRoom,
    // of heads of parts
    WholeHeads,
    HeadShape,
    SameSheet,
    NoneFull,
    // of every lent buffer of a fixed length
    BufferLength,
}

// The first question whose answer is no, and what it was asked of: a place, a constraint, a symmetry, an entry, else 0.
#[derive(Clone, Copy, Debug, PartialEq, Eq)]
pub struct Refusal {
    pub question: Question,
    pub item: usize,
}

impl Question {
    // The papers' number.
    pub fn number(self) -> u8
        ensures { result ≡ number_of self }
    {
        match self {
            Question::Header => 1,
            Question::Variables => 2,
            Question::Values => 3,
            Question::Constraints => 4,
            Question::Symmetries => 5,
            Question::SheetLength => 6,
            Question::Offsets => 7,
            Question::InitialSet => 8,
            Question::ConstraintEnd => 9,
            Question::ConstraintSize => 10,
            Question::Scope => 11,
            Question::RowValues => 12,
            Question::RowOrder => 13,
            Question::TableLength => 14,
            Question::PairsPermuted => 15,
            Question::Respected => 16,
            Question::Sets => 17,
            Question::ListLengths => 18,
            Question::Entry => 19,
            Question::WholeRows => 20,
            Question::SmallValues => 21,
            Question::Room => 22,
            Question::Columns => 23,
            Question::TwoLists => 24,
            Question::FirstAscends => 25,
            Question::SecondAscends => 26,
            Question::MergeRoom => 27,
            Question::WholePairs => 28,
            Question::PairPlaces => 29,
            Question::NoCircle => 30,
            Question::Owner => 31,
            Question::FreeSlot => 32,
            Question::TableSize => 33,
            Question::HeldKey => 34,
            Question::CopyRoom => 35,
            Question::Block => 36,
            Question::FreeSeat => 37,
            Question::HeldSeat => 38,
            Question::Position => 39,
            Question::SheetRoom => 40,
            Question::WholeHeads => 41,
            Question::HeadShape => 42,
            Question::SameSheet => 43,
            Question::NoneFull => 44,
            Question::BufferLength => 255,
        }
    }
}

// A question that is asked once refuses with item 0.
impl From<Question> for Refusal {
    ghost from_gives = { λ question refusal. refusal ≡ record { question = question; item = 0 } };

    fn from(question: Question) -> Refusal {
        Refusal { question, item: 0 }
    }
}
