// What every function answers.
ghost use Rattle.std.specs.Prelude.{◌≡◌};
ghost use Rattle.crafty_c.specs.Answer.{done_of, refused_of, answer_of};

use refusal::Refusal;

// Document 01's number, 0 for success, and a value: what also comes back with a refusal, or of a success how much was written,
// or a list's seconds.
#[repr(C)]
#[derive(Clone, Copy)]
pub struct CraftyAnswer {
    pub number: u32,
    pub value: usize,
}

pub fn done(value: usize) -> CraftyAnswer
    ensures { result ≡ done_of value }
{
    CraftyAnswer { number: 0, value }
}

pub fn refused(x: Refusal) -> CraftyAnswer
    ensures { result ≡ refused_of x }
{
    let report = x.reported();
    CraftyAnswer {
        number: u32::from(report.0),
        value: report.1.unwrap_or(0),
    }
}

// The answer of an entry, by what is told of its success.
pub fn answer(told: Result<usize, Refusal>) -> CraftyAnswer
    ensures { result ≡ answer_of told }
{
    match told {
        Ok(value) => done(value),
        Err(x) => refused(x),
    }
}
