// A read's end: the board of the elements of the k lowest servers that sent one.
ghost use Rattle.client.specs.State.{slots_of};
ghost use Rattle.client.specs.inner.Gather.{ShowPost, ShowPre};

use super::{gather, zeros};
use config::{Config, MOST_SERVERS, MOST_WIDTH};

// Shows the board in the lent buffer, and gives its length: that of the lowest of these servers.
pub(crate) fn show(
    cfg: Config,
    sent: u32,
    lengths: [u16; 16],
    elements: &[u8],
    board: &mut [u8],
) -> u16
    requires { ShowPre cfg sent elements.now board.old }
    ensures { ShowPost cfg (slots_of lengths elements.now) sent board.new result }
{
    let mut numbers = [0u8; MOST_SERVERS];
    let mut packed = [0u8; MOST_SERVERS * MOST_WIDTH];
    gather::gather(cfg, sent, elements, &mut numbers, &mut packed);
    let k = cfg.k;
    let size = k * cfg.e;
    let _ = code::decode(cfg, &numbers[..k], &packed[..size], board);
    let low = numbers[0] as usize - 1;
    let length = lengths[low];
    zeros::cut(length, board);
    length
}
