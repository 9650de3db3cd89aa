// A server: its state by value, its store lent by the host. Every function is proved, nothing is assumed, and no public function
// has a `requires`.
#![tactic(auto)]

mod places;
mod serve;
mod within;

ghost use Rattle.std.specs.Prelude.{◌≡◌};
ghost use Rattle.config.specs.Questions.{first_no};
ghost use Rattle.config.specs.Refusal.{verdict_number};
ghost use Rattle.server.specs.Calls.{FindPost, FreshPost, LendPost, StepPost, fresh_state, state_questions, step_questions};
ghost use Rattle.server.specs.inner.Receive.{ReceivePost};
ghost use Rattle.server.specs.inner.Serve.{unchanged};

use config::{Config, RECORD, Refusal, Server};
use record::Header;
use tag::Tag;

// What a server keeps: its number, the highest finalised tag, the floor, which is the highest tag that was dropped, if any was, and
// the first `count` of the tags as the stored ones. The element of tag i stands in the store at i × E, and the length of its board
// is length i.
#[derive(Clone, Copy, PartialEq, Eq)]
pub struct State {
    pub me: Server,
    pub count: u8,
    pub highest: Tag,
    pub floor: Option<Tag>,
    pub tags: [Tag; 8],
    pub lengths: [u16; 8],
}

// What a call leaves: its verdict and the state, which stands beside it, for `StepPost` and `FreshPost` say of a refusal too which it is.
#[derive(Clone, Copy)]
pub struct Stepped {
    pub verdict: Result<(), Refusal>,
    pub state: State,
}

// A refusal, with all as it was.
fn refused(s: State, why: Refusal) -> Stepped
    ensures { result ≡ unchanged s why }
{
    Stepped {
        verdict: Err(why),
        state: s,
    }
}

// Questions 1 to 5 and 21, and 6 of a state and of its store's length: the first that is answered no is the refusal.
pub fn ask(cfg: Config, state: State, long: usize) -> Result<(), Refusal>
    ensures { verdict_number result ≡ first_no (state_questions cfg state long) }
{
    cfg.ask()?;
    if long != within::store_length(cfg) {
        return Err(Refusal::Shape);
    }
    if !within::numbers(cfg, state) {
        return Err(Refusal::Shape);
    }
    if !within::lengths(cfg, state) {
        return Err(Refusal::Shape);
    }
    Ok(())
}

// A server that stores one tag, (0, 0), with a length.
fn first(me: Server, length: u16) -> State
    ensures { result ≡ fresh_state me length }
{
    let start = Tag {
        number: 0,
        client: 0,
    };
    State {
        me,
        highest: start,
        floor: None,
        count: 1,
        tags: [start; 8],
        lengths: [length; 8],
    }
}

// A fresh server, with the starting board's element in the store, and its length V: questions 1 to 5, 21, 6 and 8.
pub fn fresh(cfg: Config, me: Server, element: &[u8], store: &mut [u8]) -> Stepped
    ensures { FreshPost cfg me element.now store.old store.new result }
{
    if let Err(why) = cfg.ask() {
        return refused(first(me, 0), why);
    }
    if element.len() != cfg.e {
        return refused(first(me, 0), Refusal::Shape);
    }
    if store.len() != within::store_length(cfg) {
        return refused(first(me, 0), Refusal::Shape);
    }
    if !within::server_within(cfg, me) {
        return refused(first(me, 0), Refusal::Missing);
    }
    copies::copy(element, store);
    Stepped {
        verdict: Ok(()),
        state: first(me, (cfg.k * cfg.e) as u16),
    }
}

// Questions 1 to 5, 21, 6 and 12 of a step, and 16 of the server's number: the header of a record with this server's number, or the
// first that is answered no.
fn receive(
    cfg: Config,
    state: State,
    handed: &[u8],
    store: usize,
    answer: usize,
) -> Result<Header, Refusal>
    ensures { ReceivePost cfg state handed.now store answer result }
{
    ask(cfg, state, store)?;
    if handed.len() != RECORD {
        return Err(Refusal::Shape);
    }
    if answer != RECORD {
        return Err(Refusal::Shape);
    }
    let Ok(h) = record::read(cfg, handed) else {
        return Err(Refusal::IllFormed);
    };
    let server = h.server;
    let me = state.me;
    if server.number() == me.number() {
        Ok(h)
    } else {
        Err(Refusal::Misdirected)
    }
}

// Questions 1 to 5, 21, 6, 12 and 16 of a record that a step would be handed: the first that is answered no is the refusal.
pub fn ask_step(
    cfg: Config,
    state: State,
    handed: &[u8],
    store: usize,
    answer: usize,
) -> Result<(), Refusal>
    ensures { verdict_number result ≡ first_no (step_questions cfg state handed.now store answer) }
{
    let h = receive(cfg, state, handed, store, answer)?;
    let kind = h.kind;
    if !kind.is_for_server() {
        return Err(Refusal::Misdirected);
    }
    Ok(())
}

// One step on a record: questions 1 to 5, 21, 6, 12 and 16. The answer is written to a lent record.
pub fn step(
    cfg: Config,
    state: State,
    handed: &[u8],
    store: &mut [u8],
    answer: &mut [u8],
) -> Stepped
    ensures { StepPost cfg state handed.now store.old answer.old store.new answer.new result }
{
    match receive(cfg, state, handed, store.len(), answer.len()) {
        Err(why) => refused(state, why),
        Ok(h) => serve::request(cfg, state, h, handed, store, answer),
    }
}

// The first place in a store of this length that holds a tag, in bytes from the start of the store, if it is stored: questions 1 to
// 5, 21 and 6.
pub fn find(cfg: Config, state: State, tag: Tag, long: usize) -> Result<Option<usize>, Refusal>
    ensures { FindPost cfg state tag long result }
{
    ask(cfg, state, long)?;
    let count = state.count as usize;
    let tags = state.tags;
    let place = places::place_of(tag, 0, count, tags);
    if count <= place {
        return Ok(None);
    }
    Ok(Some(place * cfg.e))
}

// The stored element of a tag, as that part of the store: empty if there is none or the call is refused. The refusal's number, or
// 0, goes into the lent number. Questions 1 to 5, 21 and 6.
pub fn lend<'a>(cfg: Config, state: State, tag: Tag, store: &'a [u8], no: &mut u8) -> &'a [u8]
    ensures { LendPost cfg state tag store.now result.now no.new }
{
    *no = 0;
    match find(cfg, state, tag, store.len()) {
        Err(why) => {
            *no = why.number();
            &store[..0]
        }
        Ok(None) => &store[..0],
        Ok(Some(from)) => {
            let end = from + cfg.e;
            &store[from..end]
        }
    }
}
