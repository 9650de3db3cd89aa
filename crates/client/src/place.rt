// Bytes moved from one buffer to a place in another.
ghost use Rattle.std.specs.Prelude.{◌≡◌, take as taken, drop};
ghost use Rattle.laws.specs.Parts.{over};
ghost use Rattle.record.specs.Calls.{with_element};
ghost use Rattle.client.specs.State.{placed};
ghost use Rattle.client.specs.inner.Place.{PlacePre, TakePre};

use config::Config;
use record::Header;

// Copies n bytes of src, from the place `from`, to the place `at` of dst.
pub(crate) fn place(src: &[u8], from: usize, n: usize, dst: &mut [u8], at: usize)
    requires { PlacePre src.now from n dst.old at }
    ensures { dst.new ≡ over at n (taken n (drop from src.now)) dst.old }
{
    let end = from + n;
    copies::copy(&src[from..end], &mut dst[at..]);
}

// Puts the element of an answer, if it has one, in its server's place.
pub(crate) fn take(cfg: Config, h: Header, message: &[u8], elements: &mut [u8])
    requires { TakePre cfg h message.now elements.old }
    ensures { elements.new ≡ placed cfg (with_element cfg h message.now) elements.old }
{
    if !h.present {
        return;
    }
    let server = h.server;
    let s = server.number() as usize;
    let e = cfg.e;
    place(message, 16, e, elements, (s - 1) * e);
}
