// The filter for callers: sets and lists in bytes.
#![tactic(auto)]

mod sets;

ghost use Rattle.std.specs.Prelude.{◌≡◌, ◌*◌, length};
ghost use Rattle.model.specs.Nogood.{filter_answer};
ghost use Rattle.filter.specs.Meaning.{means};
ghost use Rattle.export_filter.specs.Filter.{filter_answer_code, sets_in, filtered_bytes, SmallAnswer};
ghost use Rattle.export_filter.specs.FilterBytes.{CallBytes};

use filter::Ending;
use model::refusals::Refusal;
use wire::{WRONG_LENGTH, refusal_code};

// How the filter ended as one number, or its refusal.
fn filter_code(answer: Result<Ending, Refusal>) -> u32
    requires { SmallAnswer (means answer) }
    ensures { result ≡ filter_answer_code (means answer) }
{
    match answer {
        Ok(Ending::Consistent) => 0,
        Ok(Ending::Entailed) => 1,
        Ok(Ending::Failed) => 2,
        Err(refusal) => refusal_code(refusal),
    }
}

// The filter, with room for the sets as words; what it leaves is written back, a refusal's sets as they came.
fn filter_words(
    sets: &mut [u8],
    words: &mut [u16],
    index: &[u8],
    equal: &[u8],
    not_equal: &[u8],
) -> u32
    requires { length sets.old ≡ 2 * length words.old }
    ensures value { result ≡ filter_answer_code (filter_answer (sets_in sets.old) index.now equal.now not_equal.now) }
    ensures sets_after { sets.new ≡ filtered_bytes sets.old index.now equal.now not_equal.now }
{
    sets::load(sets, words);
    let answer = filter::filter(words, index, equal, not_equal);
    sets::store(words, sets);
    filter_code(answer)
}

// More than twelve sets: refusal 17.
const TOO_MANY: u32 = 17 * 256;

// Filters sets of values, each two bytes, low byte first: 0 where it ended consistent, 1 entailed, 2 failed (paper 02, #102), else the
// refusal, number * 256 + item, and the sets as they came. An odd number of bytes is 255 times 256.
pub fn filter(sets: &mut [u8], index: &[u8], equal: &[u8], not_equal: &[u8]) -> u32
    ensures { CallBytes sets.old index.now equal.now not_equal.now result sets.new }
{
    if sets.len() % 2 != 0 {
        return WRONG_LENGTH;
    }
    let n = sets.len() / 2;
    if 12 < n {
        return TOO_MANY;
    }
    let mut words = [0u16; 12];
    filter_words(sets, &mut words[..n], index, equal, not_equal)
}
