// The words of an answer.
use crafty::Refusal;
use std::fmt;
use std::fmt::Display;

// What an entry answered: its value, or the number of the refusal and what comes back with it.
#[derive(Clone, Copy, Debug, PartialEq, Eq)]
pub struct Answer<T>(pub Result<T, Refusal>);

impl<T: Display> Display for Answer<T> {
    fn fmt<W: fmt::Write>(&self, f: &mut fmt::Formatter<W>) -> fmt::Result {
        match &self.0 {
            Ok(value) => write!(f, "{value}"),
            Err(x) => {
                let report = x.reported();
                write!(f, "refused {}", report.0)?;
                match report.1 {
                    Some(value) => write!(f, " {value}"),
                    None => Ok(()),
                }
            }
        }
    }
}

// A value, or a dash.
#[derive(Clone, Copy, Debug, PartialEq, Eq)]
pub struct OrDash<T>(pub Option<T>);

impl<T: Display> Display for OrDash<T> {
    fn fmt<W: fmt::Write>(&self, f: &mut fmt::Formatter<W>) -> fmt::Result {
        match &self.0 {
            Some(value) => write!(f, "{value}"),
            None => f.write_str("-"),
        }
    }
}

// The bits of a float in eight digits. A NaN has no bits of its own.
#[derive(Clone, Copy, Debug, PartialEq)]
pub struct Bits(pub f32);

impl Display for Bits {
    fn fmt<W: fmt::Write>(&self, f: &mut fmt::Formatter<W>) -> fmt::Result {
        if self.0.is_nan() {
            return f.write_str("NaN");
        }
        write!(f, "{:08X}", self.0.to_bits())
    }
}
