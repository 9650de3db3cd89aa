// The calls of `host` for C and for other languages: a slice is a pointer and a length. Each export is the call of its name, with its contract. What
// a call is lent to write overlaps nothing else that it is handed: a host in C has to see to that. Every function is proved, nothing is assumed, and no
// export has a `requires`.
#![tactic(auto)]

ghost use Rattle.client.specs.State.{lent};
ghost use Rattle.host.specs.Calls.{ClientFreshPost, ClientReadPost, ClientStepPost, ClientWritePost, DecodePost, EncodeAllPost, EncodePost, LengthsPost, ServerElementPost, ServerFreshPost, ServerStepPost};

// The lengths of buffers: of a board, of a server's store, of the elements that a client has received, and of its sends.
#[unsafe(no_mangle)]
pub extern "C" fn coded_lengths(
    config: &[u8],
    board: &mut usize,
    store: &mut usize,
    elements: &mut usize,
    sends: &mut usize,
) -> u8
    ensures { LengthsPost config.now board.old store.old elements.old sends.old board.new store.new elements.new sends.new result }
{
    host::coded_lengths(config, board, store, elements, sends)
}

// A fresh server of a number: its state, and its element of the starting board in its store.
#[unsafe(no_mangle)]
pub extern "C" fn coded_server_fresh(
    config: &[u8],
    s: u8,
    element: &[u8],
    state: &mut [u8],
    store: &mut [u8],
) -> u8
    ensures { ServerFreshPost config.now s element.now state.old store.old state.new store.new result }
{
    host::coded_server_fresh(config, s, element, state, store)
}

// A server's step on a record; its answer goes into a lent record.
#[unsafe(no_mangle)]
pub extern "C" fn coded_server_step(
    config: &[u8],
    state: &mut [u8],
    message: &[u8],
    store: &mut [u8],
    answer: &mut [u8],
) -> u8
    ensures { ServerStepPost config.now state.old message.now store.old answer.old state.new store.new answer.new result }
{
    host::coded_server_step(config, state, message, store, answer)
}

// Where in its store a server keeps the element of a tag: the store's length where the tag is not stored.
#[unsafe(no_mangle)]
pub extern "C" fn coded_server_element(
    config: &[u8],
    state: &[u8],
    number: u32,
    client: u8,
    store: &[u8],
    place: &mut usize,
) -> u8
    ensures { ServerElementPost config.now state.now (record { number = number; client = client }) store.now place.old place.new result }
{
    host::coded_server_element(config, state, number, client, store, place)
}

// A fresh client of a number: its state.
#[unsafe(no_mangle)]
pub extern "C" fn coded_client_fresh(config: &[u8], c: u8, state: &mut [u8]) -> u8
    ensures { ClientFreshPost config.now c state.old state.new result }
{
    host::coded_client_fresh(config, c, state)
}

// A client begins to write a board of a length; the board goes into the kept one, the queries into the sends.
#[unsafe(no_mangle)]
pub extern "C" fn coded_client_write(
    config: &[u8],
    state: &mut [u8],
    length: u16,
    board: &[u8],
    kept: &mut [u8],
    sends: &mut [u8],
) -> u8
    ensures { ClientWritePost config.now state.old length board.now kept.old sends.old state.new kept.new sends.new result }
{
    host::coded_client_write(config, state, length, board, kept, sends)
}

// A client begins to read; the queries go into the sends.
#[unsafe(no_mangle)]
pub extern "C" fn coded_client_read(config: &[u8], state: &mut [u8], sends: &mut [u8]) -> u8
    ensures { ClientReadPost config.now state.old sends.old state.new sends.new result }
{
    host::coded_client_read(config, state, sends)
}

// A client's step on a record: what it sends goes into the sends, a read's board into the lent one, and the outcome says what there is.
#[unsafe(no_mangle)]
pub extern "C" fn coded_client_step(
    config: &[u8],
    state: &mut [u8],
    message: &[u8],
    kept: &[u8],
    elements: &mut [u8],
    sends: &mut [u8],
    board: &mut [u8],
    outcome: &mut [u8],
) -> u8
    ensures { ClientStepPost config.now state.old message.now (lent kept.now elements.old sends.old board.old) outcome.old state.new (lent kept.now elements.new sends.new board.new) outcome.new result }
{
    host::coded_client_step(
        config, state, message, kept, elements, sends, board, outcome,
    )
}

// The element of a server.
#[unsafe(no_mangle)]
pub extern "C" fn coded_encode(config: &[u8], board: &[u8], s: u8, element: &mut [u8]) -> u8
    ensures { EncodePost config.now board.now s element.old element.new result }
{
    host::coded_encode(config, board, s, element)
}

// The elements of all servers, each in its record of `distance` bytes of a lent buffer, `offset` bytes behind the record's start.
#[unsafe(no_mangle)]
pub extern "C" fn coded_encode_all(
    config: &[u8],
    board: &[u8],
    offset: usize,
    distance: usize,
    buffer: &mut [u8],
) -> u8
    ensures { EncodeAllPost config.now board.now offset distance buffer.old buffer.new result }
{
    host::coded_encode_all(config, board, offset, distance, buffer)
}

// The board of elements.
#[unsafe(no_mangle)]
pub extern "C" fn coded_decode(
    config: &[u8],
    servers: &[u8],
    elements: &[u8],
    board: &mut [u8],
) -> u8
    ensures { DecodePost config.now servers.now elements.now board.old board.new result }
{
    host::coded_decode(config, servers, elements, board)
}
