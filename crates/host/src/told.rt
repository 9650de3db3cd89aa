// What the bytes of a configuration and of a state tell, or the refusal of the first question about them that is answered no.
ghost use Rattle.std.specs.Prelude.{◌≡◌};
ghost use Rattle.host.specs.inner.Told.{ClientTold, ConfigRead, ConfigTold, ServerTold};

use config::{Config, Refusal};
use states::{clients, servers};

// The bytes of a configuration: N, k, D, E and C, and the ranks of 16 clients.
pub(crate) const CONFIG: usize = 21;

#[derive(Clone, Copy)]
pub(crate) struct OfServer {
    pub(crate) cfg: Config,
    pub(crate) state: server::State,
}

#[derive(Clone, Copy)]
pub(crate) struct OfClient {
    pub(crate) cfg: Config,
    pub(crate) state: client::State,
}

// The configuration: 6 where it has another length.
pub(crate) fn read(bytes: &[u8]) -> Result<Config, Refusal>
    ensures { ConfigRead bytes.now result }
{
    if bytes.len() != CONFIG {
        return Err(Refusal::Shape);
    }
    let mut ranks = [0u8; 16];
    copies::copy(&bytes[5..], &mut ranks);
    Ok(Config {
        n: wide(bytes[0]),
        k: wide(bytes[1]),
        d: wide(bytes[2]),
        e: wide(bytes[3]),
        c: wide(bytes[4]),
        ranks,
    })
}

// The same, and questions 1 to 5 and 21.
pub(crate) fn config(bytes: &[u8]) -> Result<Config, Refusal>
    ensures { ConfigTold bytes.now result }
{
    let told = read(bytes)?;
    told.ask()?;
    Ok(told)
}

// The configuration, and a server's state.
pub(crate) fn server(bytes: &[u8], state: &[u8]) -> Result<OfServer, Refusal>
    ensures { ServerTold bytes.now state.now result }
{
    let cfg = read(bytes)?;
    let told = servers::unpack(cfg, state);
    told.verdict?;
    Ok(OfServer {
        cfg,
        state: told.state,
    })
}

// The configuration, and a client's state.
pub(crate) fn client(bytes: &[u8], state: &[u8]) -> Result<OfClient, Refusal>
    ensures { ClientTold bytes.now state.now result }
{
    let cfg = read(bytes)?;
    let told = clients::unpack(cfg, state);
    told.verdict?;
    Ok(OfClient {
        cfg,
        state: told.state,
    })
}

// A byte as a number.
fn wide(b: u8) -> usize
    ensures { result ≡ b }
{
    b as usize
}
