// The code of document 01: the elements of a board, and the board of any k of its elements. Every function is proved, nothing is
// assumed, and no public function has a `requires`.
#![tactic(auto)]

ghost use Rattle.code.specs.Decode.{DecodePost};
ghost use Rattle.code.specs.Encode.{EncodePost};
ghost use Rattle.code.specs.EncodeAll.{EncodeAllPost};

use config::{Config, Refusal};

mod board;
mod choice;
mod combine;
mod digit;
mod element;
mod elements;
mod inverse;
mod powers;
mod question;
mod row;
mod subsets;

// The element of server s of a board, into a lent part of E bytes. The part may start anywhere in the caller's buffer, and the bytes
// around it stay: specs/Around.
pub fn encode(cfg: Config, board: &[u8], s: u8, part: &mut [u8]) -> Result<(), Refusal>
    ensures { EncodePost cfg board.now s part.old part.new result }
{
    question::encode(cfg, board.len(), s, part.len())?;
    element::encode(cfg, board, s, part);
    Ok(())
}

// The elements of all servers of a board, into a lent buffer of N records of `distance` bytes: each element stands `offset` bytes behind the
// start of its record. The bytes around the elements stay: specs/Around.
pub fn encode_all(
    cfg: Config,
    board: &[u8],
    offset: usize,
    distance: usize,
    buffer: &mut [u8],
) -> Result<(), Refusal>
    ensures { EncodeAllPost cfg board.now offset distance buffer.old buffer.new result }
{
    question::encode_all(cfg, board.len(), offset, distance, buffer.len())?;
    elements::encode(cfg, board, offset, distance, buffer);
    Ok(())
}

// The board of which the first k of these servers hold these elements, into a buffer of V bytes. The elements stand one after
// the other.
pub fn decode(
    cfg: Config,
    servers: &[u8],
    elements: &[u8],
    buffer: &mut [u8],
) -> Result<(), Refusal>
    ensures { DecodePost cfg servers.now elements.now buffer.old buffer.new result }
{
    question::decode(cfg, servers, elements.len(), buffer.len())?;
    board::decode(cfg, servers, elements, buffer);
    Ok(())
}
