// The symmetry store (paper 02, #110): an owner is the paper's course, a key its hall. The answer has 12 bytes, three numbers of four bytes,
// low byte first: 1, the number of bytes written to the room, 0. Each function answers 0; or a refusal, and then every buffer is as it
// came; or, asked first, 255 times 256 where the answer has not 12 bytes or the store not STORE_BYTES.
#![tactic(auto)]

ghost use Rattle.std.specs.Prelude.{◌≡◌, length};
ghost use Rattle.store.specs.Meaning.{means_bytes};
ghost use Rattle.wire.specs.Outcomes.{outcome_code, outcome_answer};
ghost use Rattle.export_store.specs.Inner.Fits.{OutcomeFits};
ghost use Rattle.export_store.specs.Calls.{CallPutBytes, CallFetchBytes, CallDropBytes};

use model::refusals::Question;
use wire::{WRONG_LENGTH, refusal_code, three};

// The number of bytes written, or the refusal, as the returned number and the answer.
fn told(answer: &mut [u8], written: Result<usize, Question>) -> u32
    requires { (length answer.old ≡ 12) × OutcomeFits (means_bytes written) }
    ensures value { result ≡ outcome_code (means_bytes written) }
    ensures answer_after { answer.new ≡ outcome_answer (means_bytes written) answer.old }
{
    match written {
        Err(question) => refusal_code(question.into()),
        Ok(bytes) => {
            three(answer, 1, bytes, 0);
            0
        }
    }
}

// Puts a table in place of the one there.
pub fn store_put(store: &mut [u8], owner: u32, key: u8, table: &[u8], answer: &mut [u8]) -> u32
    ensures { CallPutBytes store.old owner key table.now answer.old result store.new answer.new }
{
    if answer.len() != 12 {
        return WRONG_LENGTH;
    }
    let done = store::put(store, owner, key, table);
    told(answer, done.map(|()| 0))
}

// Copies a table to the front of the room.
pub fn store_fetch(store: &[u8], owner: u32, key: u8, room: &mut [u8], answer: &mut [u8]) -> u32
    ensures { CallFetchBytes store.now owner key room.old answer.old result room.new answer.new }
{
    if answer.len() != 12 {
        return WRONG_LENGTH;
    }
    let written = store::fetch(store, owner, key, room);
    told(answer, written)
}

// Removes a table; its room is used again.
pub fn store_drop(store: &mut [u8], owner: u32, key: u8, answer: &mut [u8]) -> u32
    ensures { CallDropBytes store.old owner key answer.old result store.new answer.new }
{
    if answer.len() != 12 {
        return WRONG_LENGTH;
    }
    let done = store::remove(store, owner, key);
    told(answer, done.map(|()| 0))
}
