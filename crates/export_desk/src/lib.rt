// A queue of eight jobs (paper 02, #113: a desk for eight halls), in QUEUE_BYTES lent bytes; all bytes 0 are the empty queue.
// Numbers in an answer have four bytes, low byte
// first. Each function answers 0; or a refusal, and then every buffer is as it came; or, asked first, 255 times 256 where the answer or the queue has
// another length than is asked.
#![tactic(auto)]

ghost use Rattle.std.specs.Prelude.{◌≡◌, ℕ, ◌^◌, ◌≤◌, ◌<◌, length};
ghost use Rattle.model.specs.Written.{Written};
ghost use Rattle.desk.specs.Queue.{submit, answered, standing_by};
ghost use Rattle.desk.specs.Meaning.{turned_as};
ghost use Rattle.export_desk.specs.Told.{four_numbers, kind_of, reply_code, reply_answer, CallQueue, CallRelease, CallStatus};
ghost use Rattle.export_desk.specs.Inner.{Fits.ReplyFits, Answers.means};

use desk::Stands;
use model::refusals::Refusal;
use wire::{WRONG_LENGTH, four, refusal_code, three};

// Puts four numbers at the front; answers the place after them.
fn numbers(answer: &mut [u8], kind: usize, a: usize, b: usize, c: usize) -> usize
    requires { (16 ≤ length answer.old) × (kind < 2 ^ 32) × (a < 2 ^ 32) × (b < 2 ^ 32) × (c < 2 ^ 32) }
    ensures { Written answer.old 0 (four_numbers kind a b c) answer.new result }
{
    let first = four(answer, 0, kind);
    let second = four(answer, first, a);
    let third = four(answer, second, b);
    four(answer, third, c)
}

// The kind of a slot: 1 finished, 2 spent, 3 full, 4 running.
fn kind(standing: u8) -> usize
    ensures { ((plans nodes : ℕ) → result ≡ kind_of (standing_by standing plans nodes)) × (result < 5) }
{
    if standing == 0 {
        return 4;
    }
    if standing < 3 {
        return standing as usize;
    }
    3
}

// Puts how a slot stands, four numbers; answers the place after them.
fn stands(answer: &mut [u8], s: Stands) -> usize
    requires { (16 ≤ length answer.old) × (s.slot < 2 ^ 32) × (s.plans < 2 ^ 32) × (s.nodes < 2 ^ 32) }
    ensures { Written answer.old 0 (four_numbers (kind_of (standing_by s.standing s.plans s.nodes)) s.slot s.plans s.nodes) answer.new result }
{
    numbers(answer, kind(s.standing), s.slot, s.plans, s.nodes)
}

// The answer of a turn: how the slot served stands; four zeros where no run waits.
pub fn turned(answer: &mut [u8], served: Option<Stands>)
    requires { ReplyFits (answered (turned_as served)) (length answer.old) }
    ensures { answer.new ≡ reply_answer (answered (turned_as served)) answer.old }
{
    match served {
        Some(s) => {
            stands(answer, s);
        }
        None => {
            numbers(answer, 0, 0, 0, 0);
        }
    }
}

// What a call on the queue answers: the slot of a new job; how the slot served stands, if a run waited; the bytes that a release wrote.
#[derive(Clone, Copy, Debug, PartialEq, Eq)]
pub enum Answer {
    Queued(usize),
    Turned(Option<Stands>),
    Released(usize),
}

// A reply as the returned number and the answer.
pub fn told(answer: &mut [u8], r: Result<Answer, Refusal>) -> u32
    requires { ReplyFits (means r) (length answer.old) }
    ensures value { result ≡ reply_code (means r) }
    ensures answer_after { answer.new ≡ reply_answer (means r) answer.old }
{
    match r {
        Err(refusal) => refusal_code(refusal),
        Ok(Answer::Queued(slot)) => {
            three(answer, 1, slot, 0);
            0
        }
        Ok(Answer::Turned(served)) => {
            turned(answer, served);
            0
        }
        Ok(Answer::Released(bytes)) => {
            three(answer, 1, bytes, 0);
            0
        }
    }
}

// Puts a job into the lowest free slot. The answer has 12 bytes: 1, the slot, 0.
pub fn submit(queue: &mut [u8], sheet: &[u8], limit: u32, answer: &mut [u8]) -> u32
    ensures { CallQueue queue.old (submit sheet.now limit) answer.old result queue.new answer.new }
{
    if answer.len() != 12 {
        return WRONG_LENGTH;
    }
    match desk_submit::submit(queue, sheet, limit) {
        Ok(slot) => told(answer, Ok(Answer::Queued(slot))),
        Err(refusal) => told(answer, Err(refusal)),
    }
}

// How a slot stands. The answer has 64 bytes: its kind, its number, its plans, its nodes, and these by variable, twelve counts.
pub fn status(queue: &[u8], slot: u32, answer: &mut [u8]) -> u32
    ensures { CallStatus queue.now slot answer.old result answer.new }
{
    if answer.len() != 64 {
        return WRONG_LENGTH;
    }
    match desk_slots::status(queue, slot) {
        Ok(s) => {
            let after = stands(answer, s.stands);
            export_counts::numbers(answer, after, s.counts);
            0
        }
        Err(question) => refusal_code(question.into()),
    }
}

// Frees a slot: the plans listed so far go to the front of the room. The answer has 12 bytes: 1, the bytes written, 0.
pub fn release(queue: &mut [u8], slot: u32, room: &mut [u8], answer: &mut [u8]) -> u32
    ensures { CallRelease queue.old slot room.old answer.old result queue.new room.new
        answer.new }
{
    if answer.len() != 12 {
        return WRONG_LENGTH;
    }
    match desk_slots::release(queue, slot, room) {
        Ok(bytes) => told(answer, Ok(Answer::Released(bytes))),
        Err(question) => told(answer, Err(question.into())),
    }
}
