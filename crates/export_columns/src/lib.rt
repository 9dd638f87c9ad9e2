// Plans stored by window (paper 02, #103): rows to columns and back. The answer has 12 bytes, three numbers of four bytes, low byte first:
// 1, the number of bytes written, 0. Answers 0; or a refusal, and then every buffer is as it came; or, asked first, 255 times 256 where the
// answer has not 12 bytes.
#![tactic(auto)]

ghost use Rattle.export_columns.specs.Calls.{CallColumnsBytes, CallRowsBytes};

use wire::{WRONG_LENGTH, refusal_code, three};

// Writes rows as columns, behind a header of four numbers.
pub fn columns(variables: u32, rows: &[u8], out: &mut [u8], answer: &mut [u8]) -> u32
    ensures { CallColumnsBytes variables rows.now out.old answer.old result out.new answer.new }
{
    if answer.len() != 12 {
        return WRONG_LENGTH;
    }
    match list_columns::to_columns(variables as usize, rows, out) {
        Err(question) => refusal_code(question.into()),
        Ok(count) => {
            three(answer, 1, count, 0);
            0
        }
    }
}

// Turns a store back into rows.
pub fn rows(store: &[u8], out: &mut [u8], answer: &mut [u8]) -> u32
    ensures { CallRowsBytes store.now out.old answer.old result out.new answer.new }
{
    if answer.len() != 12 {
        return WRONG_LENGTH;
    }
    match list_columns::to_rows(store, out) {
        Err(question) => refusal_code(question.into()),
        Ok(size) => {
            three(answer, 1, size, 0);
            0
        }
    }
}
