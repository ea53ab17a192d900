// How a call answers, as C and what is printed say it, and as the definitions of the rules do.
ghost use Rattle.std.specs.Prelude.{◌≡◌, ◌<◌, Some};
ghost use Rattle.trade.specs.Limits.{packing};
ghost use Rattle.trade.specs.Answers.{done, refused, packed_of, printed_of};

use std::fmt;

// A code, 0 where the call is done, and the number that goes with it.
#[derive(Clone, Copy, Debug, PartialEq, Eq)]
pub struct Answer {
    pub code: u16,
    pub number: u64,
}

impl Answer {
    // What the code is multiplied by where code and number are packed into one number for C.
    pub const PACKING: u32 = 65_536;

    // The call is done.
    pub fn done(number: u64) -> Self
        ensures { result ≡ done number }
    {
        Answer { code: 0, number }
    }

    // The call is refused.
    pub fn refused(code: u16, number: u64) -> Self
        ensures { result ≡ refused code number }
    {
        Answer { code, number }
    }

    // Code and number in one, for C. The calls that answer C have numbers that fit.
    pub fn packed(self) -> u32
        requires { self.number < packing }
        ensures { result ≡ packed_of self }
    {
        (self.code as u32) * Answer::PACKING + (self.number as u32)
    }
}

// Code and number, with a space between them, as the programs print them.
impl fmt::Display for Answer {
    ghost output = { λ answer. Some (printed_of answer) };

    fn fmt<W: fmt::Write>(&self, f: &mut fmt::Formatter<W>) -> fmt::Result {
        write!(f, "{} {}", self.code, self.number)
    }
}
