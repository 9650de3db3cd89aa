// A client asks what to read, in its next operation number: at the begin of a read, and again where the element was cleared.
ghost use Rattle.client.specs.inner.Again.{AskAgainPost, AskAgainPre, AskToReadPost, AskToReadPre};

use super::outcome::{accepted, begun, in_phase};
use super::{Ended, HIGHEST_NUMBER, Moved, Phase, State, send};
use config::Config;

// The queries go to the servers, and nobody is counted.
pub(crate) fn ask_to_read(cfg: Config, x: State, sends: &mut [u8]) -> Moved
    requires { AskToReadPre cfg x sends.old }
    ensures { AskToReadPost cfg x sends.old sends.new result }
{
    let nothing = [0u8; 1];
    send::announce(cfg, begun(x, false, x.length), &nothing, sends)
}

// The reader asks again; at the highest operation number its read ends spent.
pub(crate) fn ask_again(cfg: Config, x: State, sends: &mut [u8]) -> Moved
    requires { AskAgainPre cfg x sends.old }
    ensures { AskAgainPost cfg x sends.old sends.new result }
{
    if x.operation < HIGHEST_NUMBER {
        return ask_to_read(cfg, x, sends);
    }
    accepted(in_phase(x, Phase::Idle), 0, Ended::Spent)
}
