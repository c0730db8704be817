// A line of text that holds a context.
ghost use Rattle.std.specs.Prelude.{◌≡◌, eqb, get_or};
ghost use Rattle.refusal.specs.Judge.{Says, answering};
ghost use Rattle.context_line.specs.Shape.{line_end, numbers_of};
ghost use Rattle.context_line.specs.inner.Line.{read_of};
ghost use Rattle.context_line.specs.Fields.{context_of};
ghost use Rattle.context_line.specs.Read.{line_tests};

use crate::fields::{FIELDS, from_numbers};
use crate::runs::number_at;
use craft_context::CraftContext;
use refusal::Refusal;

// The place of the first byte 10, or the input's length where there is none.
pub fn line_end(input: &[u8]) -> usize
    ensures { result ≡ line_end input.now }
{
    input.iter().take_while(|b| **b != b'\n').count()
}

fn is_space(line: &[u8], at: usize) -> bool
    ensures { result ≡ eqb (get_or line.now at 0) 32 }
{
    line.get(at) == Some(&b' ')
}

// The numbers of a line that has the shape: one a turn, and the last with nothing after it.
fn read_numbers(line: &[u8]) -> Option<[u64; FIELDS]>
    ensures { result ≡ read_of line.now }
{
    let mut values = [0; FIELDS];
    let mut at = 0;
    for k in 0..FIELDS - 1 {
        let (value, end) = number_at(line, at)?;
        if !is_space(line, end) {
            return None;
        }
        values[k] = value;
        at = end + 1;
    }
    let (last, end) = number_at(line, at)?;
    if end < line.len() {
        return None;
    }
    values[FIELDS - 1] = last;
    Some(values)
}

// The context of a line, which comes without its byte 10. The whole line's shape is judged before any number.
pub fn read(line: &[u8]) -> Result<CraftContext, Refusal>
    ensures { Says answering (line_tests line.now) (Ok (context_of (numbers_of line.now))) result }
{
    let values = read_numbers(line).ok_or(Refusal::MalformedLine)?;
    from_numbers(&values)
}
