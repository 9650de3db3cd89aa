// What a client does once an answer is counted: the second half of its step.
ghost use Rattle.client.specs.State.{lent};
ghost use Rattle.client.specs.inner.Settle.{SettlePost, SettlePre};

use super::next::Move;
use super::outcome::{accepted, in_phase};
use super::{Ended, Moved, Phase, State, next, send, show};
use config::Config;

// An answer has been counted: the client waits, goes on, or ends its operation.
pub(crate) fn settle(
    cfg: Config,
    x: State,
    kept: &[u8],
    elements: &[u8],
    sends: &mut [u8],
    board: &mut [u8],
) -> Moved
    requires { SettlePre cfg x (lent kept.now elements.now sends.old board.old) }
    ensures { SettlePost cfg x (lent kept.now elements.now sends.old board.old) sends.new board.new result }
{
    let next = next::next(cfg, x);
    match next {
        Move::Waits => accepted(x, 0, Ended::Nothing),
        Move::Begins(phase) => send::announce(cfg, in_phase(x, phase), kept, sends),
        Move::Ends(how) => accepted(in_phase(x, Phase::Idle), 0, how),
        Move::Shows { tag, sent } => {
            let lengths = x.lengths;
            let length = show::show(cfg, sent, lengths, elements, board);
            accepted(in_phase(x, Phase::Idle), 0, Ended::Read { tag, length })
        }
    }
}
