// Why a listing ends early.
ghost use Rattle.std.specs.Prelude.{◌≡◌, Ok, Err, MatchResult};
ghost use Rattle.listing.specs.declared.stop.Stop.TheVariants.{Failed, Refused};

use crate::lines::print_refusal;
use std::io;
use trade::Refusal;

#[derive(Drop)]
pub enum Stop {
    // A call refuses what it is handed.
    Refused(Refusal),
    // A line can't be printed.
    Failed(io::Error),
}

impl From<Refusal> for Stop {
    ghost from_gives = { λ refusal stop. stop ≡ Refused refusal };

    fn from(refusal: Refusal) -> Stop {
        Stop::Refused(refusal)
    }
}

impl From<io::Error> for Stop {
    ghost from_gives = { λ error stop. stop ≡ Failed error };

    fn from(error: io::Error) -> Stop {
        Stop::Failed(error)
    }
}

// A refusal is the last line of a listing; where a line can't be printed, that is the end of it too, and of the program.
pub fn print_end(rt: &impl Print, listed: Result<(), Stop>) -> io::Result<()>
    ensures { MatchResult listed (λ all. result ≡ Ok all) (λ stop. (error : _) → stop ≡ Failed error → result ≡ Err error) }
{
    match listed {
        Ok(()) => Ok(()),
        Err(Stop::Refused(refusal)) => print_refusal(rt, refusal.answer()),
        Err(Stop::Failed(error)) => Err(error),
    }
}
