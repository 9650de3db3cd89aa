// The questions of the three calls: the first that is answered no is the refusal.
ghost use Rattle.std.specs.Prelude.{◌≡◌, ◌*◌, ◌≤◌, eqb};
ghost use Rattle.config.specs.Questions.{first_no};
ghost use Rattle.config.specs.Refusal.{verdict_number};
ghost use Rattle.code.specs.Encode.{encode_questions};
ghost use Rattle.code.specs.EncodeAll.{encode_all_questions};
ghost use Rattle.code.specs.Decode.{decode_questions};
ghost use Rattle.code.specs.Decoded.{rising};

use config::{Config, Refusal};

pub(crate) fn encode(cfg: Config, board: usize, s: u8, part: usize) -> Result<(), Refusal>
    ensures { verdict_number result ≡ first_no (encode_questions cfg board s part) }
{
    cfg.ask()?;
    if board != cfg.k * cfg.e {
        return Err(Refusal::Shape);
    }
    if part != cfg.e {
        return Err(Refusal::Shape);
    }
    if !cfg.server_exists(s as usize) {
        return Err(Refusal::Elements);
    }
    Ok(())
}

pub(crate) fn encode_all(
    cfg: Config,
    board: usize,
    offset: usize,
    distance: usize,
    buffer: usize,
) -> Result<(), Refusal>
    ensures { verdict_number result ≡ first_no (encode_all_questions cfg board offset distance buffer) }
{
    cfg.ask()?;
    if cfg.k * cfg.e != board {
        return Err(Refusal::Shape);
    }
    if distance < cfg.e {
        return Err(Refusal::Shape);
    }
    if distance - cfg.e < offset {
        return Err(Refusal::Shape);
    }
    if !joined(distance, cfg.n, buffer) {
        return Err(Refusal::Shape);
    }
    Ok(())
}

pub(crate) fn decode(
    cfg: Config,
    servers: &[u8],
    elements: usize,
    buffer: usize,
) -> Result<(), Refusal>
    ensures { verdict_number result ≡ first_no (decode_questions cfg servers.now elements buffer) }
{
    cfg.ask()?;
    if !joined(servers.len(), cfg.e, elements) {
        return Err(Refusal::Shape);
    }
    if buffer != cfg.k * cfg.e {
        return Err(Refusal::Shape);
    }
    if !rising(cfg.n, servers) {
        return Err(Refusal::NotRising);
    }
    if servers.len() < cfg.k {
        return Err(Refusal::Elements);
    }
    Ok(())
}

// whether count × e is the total
fn joined(count: usize, e: usize, total: usize) -> bool
    requires { (1 ≤ e) × (e ≤ 64) }
    ensures { result ≡ eqb total (count * e) }
{
    if count < 65536 {
        return total == count * e;
    }
    if total / e != count {
        return false;
    }
    total % e == 0
}

// whether the numbers rise strictly within 1 to n
fn rising(n: usize, servers: &[u8]) -> bool
    ensures { result ≡ rising n servers.now }
{
    let mut low = 0;
    for server in servers {
        let s = *server as usize;
        if s <= low {
            return false;
        }
        if n < s {
            return false;
        }
        low = s;
    }
    true
}
