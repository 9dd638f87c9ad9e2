// The exact filter for increasing nogoods (paper 01, "Nogood lists"), for callers with any lists and sets.
#![tactic(auto)]

pub mod entry; // entry.rt: one entry at a time, for whoever feeds them

ghost use Rattle.std.specs.Prelude.{◌≡◌, ℕ, ◌≤◌, ◌<◌, ◌^◌, length, take, drop};
ghost use Rattle.model.specs.Lists.{at};
ghost use Rattle.model.specs.Nogood.{kind_of, entries, entry_of, entry_ok, first_wrong, filter_verdict};
ghost use Rattle.model.specs.Refusals.{verdict_from};
ghost use Rattle.filter.specs.Inner.Scan.{Stepped, Right, Resolved};
ghost use Rattle.filter.specs.Inner.Lists.{Ready, PassResult, AtSplit, ScanResult, Loaded, Listed, Applied, WrongFound, zeros, kind_as};
ghost use Rattle.filter.specs.FilterCalls.{CallFilter};

use entry::Step;
use model::ValueSet;
use model::refusals::{Question, Refusal};

// How the filter ends (paper 02, #102): no assignment obeys the list, every one does that is drawn from the sets left, or some do and some do not.
#[derive(Clone, Copy, Debug, PartialEq, Eq)]
pub enum Ending {
    Failed,
    Entailed,
    Consistent,
}

// How far a pass over the entries came: to an empty set, to the end, or to an equality that some assignments keep and some break.
#[derive(Clone, Copy, Debug, PartialEq, Eq)]
enum Reached {
    Failed,
    End,
    Split(usize),
}

// The mark of an absent value.
const MARK: u8 = 255;

// What an entry of the three lists is, by its two marks (source document 001, section 3), with the value that is there: `kind_as` in
// specs/Inner/Lists.antt has the case for each of model's.
#[derive(Clone, Copy, Debug, PartialEq, Eq)]
enum Kind {
    Equality(u8),
    Disequality(u8),
    BothAbsent,
    BothPresent,
}

fn kind_of(equal: u8, not_equal: u8) -> Kind
    ensures { result ≡ kind_as (kind_of equal not_equal) equal not_equal }
{
    match (equal, not_equal) {
        (MARK, MARK) => Kind::BothAbsent,
        (MARK, v) => Kind::Disequality(v),
        (v, MARK) => Kind::Equality(v),
        _ => Kind::BothPresent,
    }
}

// One entry of the lists, on the sets. A value is below 16, its own remainder.
fn read(sets: &mut [u16; 16], x: usize, equal: u8, not_equal: u8) -> Step
    requires { Right 16 (entry_of x equal not_equal) }
    ensures { Stepped sets.old (entry_of x equal not_equal) sets.new result }
{
    match kind_of(equal, not_equal) {
        Kind::Equality(v) => entry::equality(sets, x, v % 16),
        Kind::Disequality(v) => entry::disequality(sets, x, v % 16),
        // Question 19 has shut out both of these.
        Kind::BothAbsent => entry::disequality(sets, x, not_equal % 16),
        Kind::BothPresent => entry::equality(sets, x, equal % 16),
    }
}

// Question 19 for an entry: its variable is one of the n sets', just one of the two is the mark, and the other is below 16.
fn right(n: usize, x: u8, equal: u8, not_equal: u8) -> bool
    ensures { result ≡ entry_ok n x equal not_equal }
{
    if x as usize >= n {
        return false;
    }
    match kind_of(equal, not_equal) {
        Kind::Equality(v) | Kind::Disequality(v) => v < 16,
        Kind::BothAbsent | Kind::BothPresent => false,
    }
}

// Passes the entries from a start, until the result is known.
fn pass(sets: &mut [u16; 16], index: &[u8], equal: &[u8], not_equal: &[u8], start: usize) -> Reached
    requires { (n : ℕ) × Ready n sets.old index.now equal.now not_equal.now start }
    ensures { (n : ℕ) → Ready n sets.old index.now equal.now not_equal.now start → PassResult n
        sets.old index.now equal.now not_equal.now start sets.new result }
{
    for i in start..index.len() {
        match read(sets, index[i] as usize, equal[i], not_equal[i]) {
            Step::Next => {}
            Step::Failed => return Reached::Failed,
            Step::Obeyed => return Reached::End,
            Step::Split => return Reached::Split(i),
        }
    }
    Reached::End
}

// At an equality that some assignments keep and some break, of which nothing has been passed: the value goes where no assignment keeps it, and
// nothing else does. The entries after it are passed on a copy with the pair forced, up to the next such equality; where they took nothing,
// the same is asked there. True where every assignment from the sets left obeys all entries from here on.
fn resolve(sets: &mut [u16; 16], index: &[u8], equal: &[u8], not_equal: &[u8], k: usize) -> bool
    requires { (n : ℕ) × AtSplit n sets.old index.now equal.now not_equal.now k }
    ensures { (n : ℕ) → AtSplit n sets.old index.now equal.now not_equal.now k → Resolved result n
        sets.old (drop k (entries index.now equal.now not_equal.now)) sets.new }
{
    let x = index[k] as usize;
    let mut ahead = *sets;
    entry::force(&mut ahead, x, equal[k]);
    let forced = ahead;
    match pass(&mut ahead, index, equal, not_equal, k + 1) {
        Reached::Failed => {
            entry::disequality(sets, x, equal[k]);
            true
        }
        Reached::End => !entry::changed(&forced, &ahead),
        Reached::Split(j) => {
            if entry::changed(&forced, &ahead) {
                return false;
            }
            resolve(&mut ahead, index, equal, not_equal, j) && !entry::changed(&forced, &ahead)
        }
    }
}

// The exact filter on sixteen sets.
fn propagate(sets: &mut [u16; 16], index: &[u8], equal: &[u8], not_equal: &[u8]) -> Ending
    requires { (n : ℕ) × Ready n sets.old index.now equal.now not_equal.now 0 }
    ensures { (n : ℕ) → Ready n sets.old index.now equal.now not_equal.now 0 → ScanResult result n
        sets.old (entries index.now equal.now not_equal.now) sets.new }
{
    match pass(sets, index, equal, not_equal, 0) {
        Reached::Failed => Ending::Failed,
        Reached::End => Ending::Entailed,
        Reached::Split(k) => {
            if resolve(sets, index, equal, not_equal, k) {
                Ending::Entailed
            } else {
                Ending::Consistent
            }
        }
    }
}

// Copies the lent sets to the front of the sixteen; true where one is empty.
fn load(source: &[u16], target: &mut [u16; 16]) -> bool
    requires { (length source.now ≤ 16) × (length target.old ≡ 16) × ((x : ℕ) → at target.old x < 2 ^ 16) }
    ensures { Loaded result source.now target.new }
{
    if source.contains(&ValueSet::EMPTY.bits) {
        return true;
    }
    target[..source.len()].copy_from_slice(source);
    false
}

fn store(source: &[u16; 16], target: &mut [u16])
    requires { (length target.old ≤ 16) × (length source.now ≡ 16) }
    ensures { target.new ≡ take (length target.old) source.now }
{
    target.copy_from_slice(&source[..target.len()]);
}

fn clear(sets: &mut [u16])
    ensures { sets.new ≡ zeros sets.old }
{
    sets.fill(ValueSet::EMPTY.bits);
}

// The exact filter, on lists that passed the questions.
fn apply(sets: &mut [u16], index: &[u8], equal: &[u8], not_equal: &[u8]) -> Ending
    requires { (length sets.old ≤ 12) × Listed (length sets.old) index.now equal.now not_equal.now }
    ensures { Applied sets.old (entries index.now equal.now not_equal.now) sets.new result }
{
    let mut work = [1u16; 16];
    if load(sets, &mut work) {
        clear(sets);
        return Ending::Failed;
    }
    let ending = propagate(&mut work, index, equal, not_equal);
    match ending {
        Ending::Failed => clear(sets),
        Ending::Entailed | Ending::Consistent => store(&work, sets),
    }
    ending
}

// The first entry that is not right.
fn first_wrong(n: usize, index: &[u8], equal: &[u8], not_equal: &[u8]) -> Option<usize>
    requires { (length equal.now ≡ length index.now) × (length not_equal.now ≡ length index.now) }
    ensures { WrongFound n index.now equal.now not_equal.now result }
{
    (0..index.len()).find(|&i| !right(n, index[i], equal[i], not_equal[i]))
}

// The questions 17, 18 and 19.
fn question(sets: &[u16], index: &[u8], equal: &[u8], not_equal: &[u8]) -> Result<(), Refusal>
    ensures { verdict_from result ≡ filter_verdict sets.now index.now equal.now not_equal.now }
{
    let n = sets.len();
    if n == 0 || 12 < n {
        return Err(Refusal::from(Question::Sets));
    }
    let m = index.len();
    if equal.len() != m || not_equal.len() != m || 192 < m {
        return Err(Refusal::from(Question::ListLengths));
    }
    match first_wrong(n, index, equal, not_equal) {
        None => Ok(()),
        Some(item) => Err(Refusal {
            question: Question::Entry,
            item,
        }),
    }
}

// Takes from the sets each value that no assignment uses that is drawn from them and obeys every nogood. A refusal leaves them as they came.
pub fn filter(
    sets: &mut [u16],
    index: &[u8],
    equal: &[u8],
    not_equal: &[u8],
) -> Result<Ending, Refusal>
    ensures { CallFilter sets.old index.now equal.now not_equal.now result sets.new }
{
    question(sets, index, equal, not_equal)?;
    Ok(apply(sets, index, equal, not_equal))
}
