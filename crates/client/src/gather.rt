// The elements that a read decodes: those of the k lowest servers that sent one, moved together.
ghost use Rattle.client.specs.inner.Gather.{GatherPost, GatherPre, PickPost, PickPre, lowest};

use super::place::place;
use super::servers;
use config::Config;

// Gathers the numbers and the elements of the k lowest servers that sent one.
pub(crate) fn gather(cfg: Config, sent: u32, elements: &[u8], numbers: &mut [u8], packed: &mut [u8])
    requires { GatherPre cfg sent elements.now numbers.old packed.old }
    ensures { GatherPost cfg (lowest cfg elements.now sent cfg.n) numbers.old numbers.new packed.old packed.new cfg.k }
{
    let mut found = 0;
    for s in 1..=cfg.n {
        found = pick(cfg, sent, s, found, elements, numbers, packed);
    }
}

// Puts the element of server s at a place, if it sent one and fewer than k are found.
fn pick(
    cfg: Config,
    sent: u32,
    s: usize,
    found: usize,
    elements: &[u8],
    numbers: &mut [u8],
    packed: &mut [u8],
) -> usize
    requires { PickPre cfg sent s found elements.now numbers.old packed.old }
    ensures { PickPost cfg sent s found elements.now numbers.old numbers.new packed.old packed.new result }
{
    if cfg.k <= found {
        return found;
    }
    let number = s as u8;
    if !servers::has(sent, number) {
        return found;
    }
    numbers[found] = number;
    let e = cfg.e;
    place(elements, (s - 1) * e, e, packed, found * e);
    found + 1
}
