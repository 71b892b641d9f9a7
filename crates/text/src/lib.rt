// Answers as text.
#![tactic(auto)]

ghost use Rattle.std.specs.Prelude.{◌≡◌};
ghost use Rattle.calls.specs.Answers.{number_of, value_of, values_from};
ghost use Rattle.text.specs.Answer.{printed, printed_end};

mod cursor;
mod held;

use crate::cursor::Cursor;
pub use crate::held::Text;
use calls::{Fields, Refusal};

// Puts a line at `at`: its number, the answer number and the values. Answers where it ends.
// A buffer and a place, and no cursor: this holds for every place, one behind the buffer's end too.
pub fn put_line(out: &mut [u8], at: usize, line: u64, answer: u64, values: &[u64]) -> usize
    ensures { (out.new ≡ printed out.old at line answer values.now) × (result ≡ printed_end out.old at line answer values.now) }
{
    let room = out.len().saturating_sub(at);
    if room / 21 < values.len() + 2 {
        return at;
    }
    let mut cursor = Cursor { out, at };
    cursor.put_line(line, answer, values);
    cursor.at
}

// The number of an answer: 0 where the call is done.
pub fn answer_number(a: Result<u64, Refusal>) -> u64
    ensures { result ≡ number_of a }
{
    match a {
        Ok(_) => 0,
        Err(why) => u64::from(why),
    }
}

// Its value: 0 where the call is refused.
pub fn answer_value(a: Result<u64, Refusal>) -> u64
    ensures { result ≡ value_of a }
{
    a.unwrap_or(0)
}

// Puts the line of an answer: the fields of a done GT, else the value. At every place of a buffer, as `put_line`.
pub fn put_answer(
    out: &mut [u8],
    at: usize,
    line: u64,
    a: Result<u64, Refusal>,
    fields: Fields,
) -> usize
    ensures { (out.new ≡ printed out.old at line (number_of a) (values_from a fields)) × (result ≡ printed_end out.old at line (number_of a) (values_from a fields)) }
{
    let answer = answer_number(a);
    if fields.count == 0 {
        let one = [answer_value(a)];
        return put_line(out, at, line, answer, &one);
    }
    let n = fields.count.min(11) as usize;
    let values = fields.values;
    put_line(out, at, line, answer, &values[..n])
}
