// The steps for hosts in C and Rust, which `host_c` exports. A configuration is 21 bytes, and a party's state is the bytes of `states`. Each call is
// that of a crate below, and answers the refusal's number, or 0, for C has no `Result`; on a refusal every buffer and every lent number is as it was. What a call is lent
// to write overlaps nothing else that it is handed: the language sees to that. Every function is proved, nothing is assumed, and no public function
// has a `requires`.
#![tactic(auto)]

mod keep;
mod outcome;
mod told;

ghost use Rattle.client.specs.State.{lent};
ghost use Rattle.host.specs.Calls.{ClientFreshPost, ClientReadPost, ClientStepPost, ClientWritePost, DecodePost, EncodeAllPost, EncodePost, LengthsPost, ServerElementPost, ServerFreshPost, ServerStepPost};

use config::{Client, Refusal, Server, verdict_number};
use states::{clients, servers};
use tag::Tag;

// The lengths of buffers: of a board, of a server's store, of the elements that a client has received, and of its sends.
pub fn coded_lengths(
    config: &[u8],
    board: &mut usize,
    store: &mut usize,
    elements: &mut usize,
    sends: &mut usize,
) -> u8
    ensures { LengthsPost config.now board.old store.old elements.old sends.old board.new store.new elements.new sends.new result }
{
    let cfg = match told::config(config) {
        Ok(cfg) => cfg,
        Err(why) => return why.number(),
    };
    let lengths = cfg.lengths(1);
    *board = lengths.board;
    *store = lengths.store;
    *elements = lengths.elements;
    *sends = lengths.sends;
    0
}

// A fresh server of a number: its state, and its element of the starting board in its store.
pub fn coded_server_fresh(
    config: &[u8],
    s: u8,
    element: &[u8],
    state: &mut [u8],
    store: &mut [u8],
) -> u8
    ensures { ServerFreshPost config.now s element.now state.old store.old state.new store.new result }
{
    let cfg = match told::config(config) {
        Ok(cfg) => cfg,
        Err(why) => return why.number(),
    };
    if state.len() != servers::LENGTH {
        return Refusal::Shape.number();
    }
    if element.len() != cfg.e {
        return Refusal::Shape.number();
    }
    if store.len() != (cfg.d + 1) * cfg.e {
        return Refusal::Shape.number();
    }
    let Ok(me) = Server::new(cfg, s) else {
        return Refusal::Missing.number();
    };
    let made = server::fresh(cfg, me, element, store);
    keep::server(made.state, state);
    0
}

// A server's step on a record; its answer goes into a lent record.
pub fn coded_server_step(
    config: &[u8],
    state: &mut [u8],
    message: &[u8],
    store: &mut [u8],
    answer: &mut [u8],
) -> u8
    ensures { ServerStepPost config.now state.old message.now store.old answer.old state.new store.new answer.new result }
{
    let told::OfServer { cfg, state: before } = match told::server(config, state) {
        Ok(told) => told,
        Err(why) => return why.number(),
    };
    let after = server::step(cfg, before, message, store, answer);
    if let Err(why) = after.verdict {
        return why.number();
    }
    keep::server(after.state, state);
    0
}

// Where in its store a server keeps the element of a tag: the store's length where the tag is not stored.
pub fn coded_server_element(
    config: &[u8],
    state: &[u8],
    number: u32,
    client: u8,
    store: &[u8],
    place: &mut usize,
) -> u8
    ensures { ServerElementPost config.now state.now (record { number = number; client = client }) store.now place.old place.new result }
{
    let told::OfServer { cfg, state: now } = match told::server(config, state) {
        Ok(told) => told,
        Err(why) => return why.number(),
    };
    match server::find(cfg, now, Tag { number, client }, store.len()) {
        Err(why) => why.number(),
        Ok(found) => {
            *place = found.unwrap_or(store.len());
            0
        }
    }
}

// A fresh client of a number: its state.
pub fn coded_client_fresh(config: &[u8], c: u8, state: &mut [u8]) -> u8
    ensures { ClientFreshPost config.now c state.old state.new result }
{
    let cfg = match told::config(config) {
        Ok(cfg) => cfg,
        Err(why) => return why.number(),
    };
    if state.len() != clients::LENGTH {
        return Refusal::Shape.number();
    }
    let Ok(me) = Client::new(cfg, c) else {
        return Refusal::Missing.number();
    };
    let made = client::fresh(cfg, me);
    keep::client(made.state, state);
    0
}

// A client begins to write a board of a length; the board goes into the kept one, the queries into the sends.
pub fn coded_client_write(
    config: &[u8],
    state: &mut [u8],
    length: u16,
    board: &[u8],
    kept: &mut [u8],
    sends: &mut [u8],
) -> u8
    ensures { ClientWritePost config.now state.old length board.now kept.old sends.old state.new kept.new sends.new result }
{
    let told::OfClient { cfg, state: before } = match told::client(config, state) {
        Ok(told) => told,
        Err(why) => return why.number(),
    };
    let after = client::begin_write(cfg, before, length, board, kept, sends);
    if let Err(why) = after.verdict {
        return why.number();
    }
    keep::client(after.state, state);
    0
}

// A client begins to read; the queries go into the sends.
pub fn coded_client_read(config: &[u8], state: &mut [u8], sends: &mut [u8]) -> u8
    ensures { ClientReadPost config.now state.old sends.old state.new sends.new result }
{
    let told::OfClient { cfg, state: before } = match told::client(config, state) {
        Ok(told) => told,
        Err(why) => return why.number(),
    };
    let after = client::begin_read(cfg, before, sends);
    if let Err(why) = after.verdict {
        return why.number();
    }
    keep::client(after.state, state);
    0
}

// A client's step on a record: what it sends goes into the sends, a read's board into the lent one, and the outcome says what there is.
pub fn coded_client_step(
    config: &[u8],
    state: &mut [u8],
    message: &[u8],
    kept: &[u8],
    elements: &mut [u8],
    sends: &mut [u8],
    board: &mut [u8],
    outcome: &mut [u8],
) -> u8
    ensures { ClientStepPost config.now state.old message.now (lent kept.now elements.old sends.old board.old) outcome.old state.new (lent kept.now elements.new sends.new board.new) outcome.new result }
{
    let told::OfClient { cfg, state: before } = match told::client(config, state) {
        Ok(told) => told,
        Err(why) => return why.number(),
    };
    if outcome.len() != outcome::LENGTH {
        return Refusal::Shape.number();
    }
    let after = client::step(cfg, before, message, kept, elements, sends, board);
    if let Err(why) = after.verdict {
        return why.number();
    }
    keep::client(after.state, state);
    let tells = outcome::pack(after.ended, after.sent);
    copies::copy(&tells, outcome);
    0
}

// The element of a server.
pub fn coded_encode(config: &[u8], board: &[u8], s: u8, element: &mut [u8]) -> u8
    ensures { EncodePost config.now board.now s element.old element.new result }
{
    let cfg = match told::read(config) {
        Ok(cfg) => cfg,
        Err(why) => return why.number(),
    };
    verdict_number(code::encode(cfg, board, s, element))
}

// The elements of all servers, each in its record of `distance` bytes of a lent buffer, `offset` bytes behind the record's start.
pub fn coded_encode_all(
    config: &[u8],
    board: &[u8],
    offset: usize,
    distance: usize,
    buffer: &mut [u8],
) -> u8
    ensures { EncodeAllPost config.now board.now offset distance buffer.old buffer.new result }
{
    let cfg = match told::read(config) {
        Ok(cfg) => cfg,
        Err(why) => return why.number(),
    };
    verdict_number(code::encode_all(cfg, board, offset, distance, buffer))
}

// The board of elements.
pub fn coded_decode(config: &[u8], servers: &[u8], elements: &[u8], board: &mut [u8]) -> u8
    ensures { DecodePost config.now servers.now elements.now board.old board.new result }
{
    let cfg = match told::read(config) {
        Ok(cfg) => cfg,
        Err(why) => return why.number(),
    };
    verdict_number(code::decode(cfg, servers, elements, board))
}
