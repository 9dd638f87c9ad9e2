// The layout of the compiled problem: definitions (specs/), where the arrays have what, and the numbers by which the parts of the search name
// an outcome. specs/Inner/Places.antt has the same names. A packed scope is taken apart here.
#![tactic(auto)]

ghost use Rattle.std.specs.Prelude.{◌≡◌, ◌<◌};
ghost use Rattle.arrays.specs.Inner.Layout.{arity_in, variable_in};

// ---- the arrays
pub const NUMBERS: usize = 2432;

pub const SUPPORTS: usize = 8192;

pub const IMAGES: usize = 3072;

pub const WIDE: usize = 26112;

pub const TABLES: usize = 55296;

pub const STACK: usize = 208;

pub const WORK: usize = 3072;

// What a sheet is compiled into: its counts, sets and scopes; its rows as sets; its symmetries.
pub type Numbers = [u64; NUMBERS];

pub type Supports = [u16; SUPPORTS];

pub type Images = [u8; IMAGES];

// Its symmetries with those of a block after them.
pub type Wide = [u8; WIDE];

// The set of variable k at depth k stands at DIAGONAL * k of the stack, sixteen sets a depth.
pub const DIAGONAL: usize = 17;

// What the search has besides: its tables, the sets of each depth, the prefix with the marks of each depth.
pub type Tables = [u16; TABLES];

pub type Stack = [u16; STACK];

pub type Work = [u64; WORK];

// ---- `numbers`
// From here on for each variable the set of the constraints on it, the initial sets, and the packed scopes of the constraints.
pub const TOUCHING: usize = 0;

pub const INITIAL: usize = 16;

pub const SCOPES: usize = 32;

// Of a packed scope: how many variables it has, and the variable at a place.
pub fn arity(w: u64) -> usize
    ensures { result ≡ arity_in w }
{
    (w % 256) as usize
}

pub fn scope_at(w: u64, i: usize) -> usize
    requires { i < 3 }
    ensures { result ≡ variable_in w i }
{
    ((w >> (8 * i + 8)) % 256) as usize
}

// How many variables, values, constraints and symmetries there are.
pub const VARIABLES: usize = 64;

pub const VALUES: usize = 65;

pub const CONSTRAINTS: usize = 66;

pub const SYMMETRIES: usize = 67;

// What a run puts among them (crate run_task): the node limit, how many plans the list has room for, from ORDER on the variable that is settled at each of
// twelve depths, the set of the block's variables (paper 02, #111), empty where no block is lent, and whether the memo is asked:
// 0 where it is not known that the symmetries respect the problem.
pub const LIMIT: usize = 68;

pub const ROOM: usize = 69;

pub const ORDER: usize = 70;

pub const BLOCK: usize = 82;

pub const ASKS: usize = 83;

// What the search's tables have here (crate arrays_tables): the variables in a constraint that is pruned by variable, and those constraints; from OTHERS on
// each
// variable's other constraints; the loose variables.
pub const LINKED: usize = 84;

pub const BY_ROWS: usize = 85;

pub const OTHERS: usize = 86;

pub const LOOSE: usize = 102;

// From here on, for each depth from 0 to 12, the constraints on three variables whose first two have one value each from there on: look-ups for the third.
// Empty where there are fewer than nine values.
pub const LOOKS: usize = 104;

// For sets of values below 8, numbers of eight lanes: from here on all of the lanes of each set; for each constraint on three variables the unions of its
// support sets. Empty where there are more than eight values or no such constraint.
pub const SPREAD: usize = 128;

pub const UNIONS: usize = 384;

// ---- `tables`
// From here on the images of the smaller values of each pair, and the image of each pair; at the front the values that go with each pair.
pub const SMALLER: usize = 3072;

pub const OWN: usize = 52224;

// ---- `work`, after the values of the prefix
// The plans listed, the number and item of a refusal, and how many of the values are the last node made.
pub const PLANS: usize = 12;

pub const NUMBER: usize = 13;

pub const ITEM: usize = 14;

pub const LAST: usize = 15;

// From here on the marks of the symmetries at each depth.
pub const MARKS: usize = 16;

// Before the run its task: how many plans are asked for, 0 where they are listed.
pub const WANTED: usize = 224;

// For each depth how often the memo was asked in vain, and the memo's entries.
pub const IDLE: usize = 240;

pub const MEMO: usize = 256;

// ---- an entry of the memo
// How many numbers an entry has, and how many entries there are.
pub const ENTRY: usize = 44;

pub const ENTRIES: usize = 64;

// The depth of its prefix, 0 in an entry that holds nothing; the level up to which the nogoods of the symmetries that are not obeyed for good say nothing
// more; the symmetries that are; the nodes below the prefix; how many values the last of them has; how many of them are plans, and the first of these in the
// list.
pub const DEPTH: usize = 0;

pub const LOW: usize = 1;

pub const GOOD: usize = 2;

pub const NODES: usize = 3;

pub const LENGTH: usize = 4;

pub const ROWS: usize = 5;

pub const FIRST: usize = 6;

// From here on for each of twelve variables its set at the prefix, its value in the last node, and how many of the nodes settle it.
pub const SETS: usize = 8;

pub const ENDS: usize = 20;

pub const COUNTS: usize = 32;

// Added to where an entry stands that was looked for in vain.
pub const VAIN: usize = 4096;

// ---- marks
// A mark from ENTAILED times k on says that every assignment obeys the nogoods at the prefix of k values; its remainder by ENTAILED is the level
// to resume at. The nogoods of the symmetry are obeyed for good; in place of a mark: no assignment obeys them.
pub const ENTAILED: u64 = 128;

pub const OBEYED: u64 = 1920;

pub const FAILED: u64 = 2048;

// ---- outcomes
// In place of the set of the changed variables: a set is empty.
pub const DEAD: u64 = 65536;

// How a part of the search ends: nothing is left of it, the run is spent, the run is full; the next variable is to be settled; the sheet is refused.
pub const ALL: u8 = 0;

pub const SPENT: u8 = 1;

pub const FULL: u8 = 2;

pub const DEEPER: u8 = 3;

pub const REFUSED: u8 = 4;
