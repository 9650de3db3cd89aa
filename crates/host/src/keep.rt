// A state is kept as the bytes that pack it, in a lent buffer of their length.
ghost use Rattle.std.specs.Prelude.{◌≡◌, length};
ghost use Rattle.states.specs.Clients as clientBytes;
ghost use Rattle.states.specs.Servers as serverBytes;

use states::{clients, servers};

pub(crate) fn server(state: server::State, out: &mut [u8])
    requires { length out.old ≡ serverBytes.packed_length }
    ensures { serverBytes.PackPost state out.new }
{
    let packed = servers::pack(state);
    copies::copy(&packed, out);
}

pub(crate) fn client(state: client::State, out: &mut [u8])
    requires { length out.old ≡ clientBytes.packed_length }
    ensures { clientBytes.PackPost state out.new }
{
    let packed = clients::pack(state);
    copies::copy(&packed, out);
}
