// The last line: the result, and how many actions were executed of how many.
ghost use Rattle.std.specs.Prelude.{◌+◌, ◌≤◌, T, length, not};
ghost use Rattle.std.specs.Float.Ieee.{is_nan};
ghost use Rattle.text.specs.Over.{Put};
ghost use Rattle.score.specs.Result.{ScoreIsNumber};
ghost use Rattle.transcript.specs.Transcript.{finished_of, result_text_of, result_most, last_line_of, last_most};

use score::CraftResult;

// The score by its bits.
fn put_finished(score: f32, out: &mut [u8], at: usize) -> usize
    requires { T (not (is_nan score)) × (at + result_most ≤ length out.old) }
    ensures { Put out.old at (finished_of score) result out.new × (result ≤ at + result_most) }
{
    let bits = f32::to_bits(score);
    let digits = text::put(out, at, b"finished ");
    text::put_hex(out, digits, bits)
}

#[tactic(auto, using(crate::specs::laws::Transcript::result_put), unfolding(crate::specs::Transcript::result_text_of))]
fn put_result(res: CraftResult, out: &mut [u8], at: usize) -> usize
    requires { ScoreIsNumber res × (at + result_most ≤ length out.old) }
    ensures { Put out.old at (result_text_of res) result out.new × (result ≤ at + result_most) }
{
    match res {
        CraftResult::Finished(score) => put_finished(score, out, at),
        CraftResult::DurabilityFailure => text::put(out, at, b"durability"),
        CraftResult::MaxStepsFailure => text::put(out, at, b"steps"),
        CraftResult::InvalidActionFailure => text::put(out, at, b"invalid"),
        CraftResult::Continuing => text::put(out, at, b"continuing"),
    }
}

pub fn put_last(res: CraftResult, executed: u32, listed: u32, out: &mut [u8], at: usize) -> usize
    requires { ScoreIsNumber res × (at + last_most ≤ length out.old) }
    ensures { Put out.old at (last_line_of res executed listed) result out.new }
{
    let word = put_result(res, out, at);
    let number = text::put(out, word, b" executed ");
    let of = text::put_number(out, number, executed, 0);
    let most = text::put(out, of, b" of ");
    let end = text::put_number(out, most, listed, 0);
    text::put_byte(out, end, b'\n')
}
