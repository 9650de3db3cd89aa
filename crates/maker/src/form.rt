// The record of what is drawn.
ghost use Rattle.std.specs.Prelude.{◌≡◌, length};
ghost use Rattle.maker.specs.inner.Draw.{seen};
ghost use Rattle.maker.specs.Load.{event_record};

use crate::draw::Drawn;

// Puts the record into its 7 bytes.
pub(crate) fn put(drawn: Drawn, out: &mut [u8])
    requires { length out.old ≡ 7 }
    ensures { out.new ≡ event_record (seen drawn) }
{
    let call = drawn.call;
    let bytes = [
        call.code,
        call.party,
        (call.position % 256) as u8,
        (call.position / 256 % 256) as u8,
        drawn.byte,
        (call.length % 256) as u8,
        (call.length / 256 % 256) as u8,
    ];
    copies::copy(&bytes, out);
}
