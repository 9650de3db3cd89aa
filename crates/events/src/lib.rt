// One event of a rig, by the part of the rig that it can touch: a server, a client, and the messages in flight. `names` says which part an
// event names, and `changes` is the event on it, for whoever keeps a rig in place. Beside the part four buffers are lent to each call: the
// messages in flight (80 × M), the servers' stores, the boards that clients keep to write and the elements that they have received, each
// the parties' parts joined in order of their numbers. Every function is proved, nothing is assumed, and no public function has a `requires`.
#![tactic(auto)]

mod begin;
mod crash;
mod deliver;
mod dispatch;
mod message;
mod named;
mod outcome;
mod questions;
mod restart;
mod within;

ghost use Rattle.std.specs.Prelude.{[], ◌∷◌, ◌++◌, ◌≡◌};
ghost use Rattle.config.specs.Refusal.{verdict_number};
ghost use Rattle.config.specs.Config.{rig_questions};
ghost use Rattle.config.specs.Questions.{ask as question, first_no};
ghost use Rattle.events.specs.Calls.{ChangePost, AloneChangePost, call_of, part_at};
ghost use Rattle.events.specs.Questions.{lent_sized, places_of};
ghost use Rattle.events.specs.View.{lent};

use config::{Config, Refusal};
use parties::{Answer, Node, Pair};

// Server s and client c stand in the places s - 1 and c - 1; the places past N and C are not in use. A client that is down says so
// itself. `count` records are in flight, the first of the messages.
#[derive(Clone, Copy, PartialEq, Eq)]
pub struct Rig {
    pub servers: [Node; 16],
    pub clients: [client::State; 16],
    pub count: usize,
}

// An event as it is called: its code, the party's number, a message's position and the length of the board handed in, each of any value.
// The length is that of a write; with another event it is not looked at.
#[derive(Clone, Copy, PartialEq, Eq)]
pub struct Call {
    pub code: u8,
    pub party: u8,
    pub position: usize,
    pub length: u16,
}

// The places of a server and of a client.
#[derive(Clone, Copy, PartialEq, Eq)]
pub struct Places {
    pub server: usize,
    pub client: usize,
}

// What an event can touch of a rig: one server and one client, with their places, and how many records are in flight.
#[derive(Clone, Copy)]
pub struct Part {
    pub server: usize,
    pub client: usize,
    pub pair: Pair,
    pub count: usize,
}

impl Part {
    // The part of these places, parties and count, whatever they are.
    pub fn of(places: Places, node: Node, client: client::State, count: usize) -> Part
        ensures { result ≡ part_at places node client count }
    {
        let pair = Pair { node, client };
        Part {
            server: places.server,
            client: places.client,
            pair,
            count,
        }
    }
}

// What an event changes: the part that it can touch, as it leaves it. All else of the rig stays.
#[derive(Clone, Copy)]
pub struct Change {
    pub answer: Answer,
    pub part: Part,
}

// An event of a party that names no board: a server or a client crashes, or a server is started again.
#[derive(Clone, Copy)]
pub enum CrashOrRestart {
    CrashServer,
    CrashClient,
    RestartServer,
}

impl CrashOrRestart {
    // That event of the party of a number, as it is called.
    pub fn call(self, party: u8) -> Call
        ensures { result ≡ call_of self party }
    {
        let code = match self {
            CrashOrRestart::CrashServer => 6,
            CrashOrRestart::CrashClient => 7,
            CrashOrRestart::RestartServer => 8,
        };
        Call {
            code,
            party,
            position: 0,
            length: 0,
        }
    }
}

// What an event leaves.
#[derive(Clone, Copy)]
pub struct Turn {
    pub answer: Answer,
    pub rig: Rig,
}

// The lengths of the buffers lent to a rig.
#[derive(Clone, Copy)]
pub struct Sizes {
    pub messages: usize,
    pub stores: usize,
    pub boards: usize,
    pub elements: usize,
}

// Questions 1 to 5 and 21, and 6 of the lengths of a board and of the buffers lent to a rig: the first that is answered no is the refusal.
pub fn ask(cfg: Config, m: usize, board: usize, sizes: Sizes) -> Result<(), Refusal>
    ensures { verdict_number result ≡ first_no (rig_questions cfg m ++ question 6 (lent_sized cfg m board sizes) ∷ []) }
{
    cfg.ask_rig(m)?;
    if !questions::sized(cfg, m, board, sizes) {
        return Err(Refusal::Shape);
    }
    Ok(())
}

// The places of the server and of the client of the number by which an event is called: of event 3 the numbers that its record has, of any
// other the party's for both, used or not; the first place where there is no such party. Both are below 16 where questions 1 to 5 and 21 are
// answered yes.
pub fn names(cfg: Config, count: usize, call: Call, messages: &[u8]) -> Places
    ensures { result ≡ places_of cfg count call messages.now }
{
    Places {
        server: named::server(cfg, count, call, messages),
        client: named::client(cfg, count, call, messages),
    }
}

// An event of a rig, questions 1 to 5, 21, 6, 19 and 7 to 13, for a host that keeps its rig in place: it takes the part whose places `names` gives, and gives it
// back for the host to put there. 6 is asked of the buffers and of this part, and of no other party.
pub fn changes(
    cfg: Config,
    m: usize,
    part: Part,
    call: Call,
    board: &[u8],
    read: &mut [u8],
    messages: &mut [u8],
    stores: &mut [u8],
    boards: &mut [u8],
    elements: &mut [u8],
) -> Change
    ensures { ChangePost cfg m part call board.now read.old (lent messages.old stores.old boards.old elements.old) result read.new (lent messages.new stores.new boards.new elements.new) }
{
    let sizes = Sizes {
        messages: messages.len(),
        stores: stores.len(),
        boards: boards.len(),
        elements: elements.len(),
    };
    if let Err(why) = questions::event(cfg, m, part.count, board.len(), read.len(), sizes) {
        return outcome::refused(part, why);
    }
    if !named::has(cfg, part, call, messages) {
        return outcome::refused(part, Refusal::Shape);
    }
    if !within::part(cfg, part) {
        return outcome::refused(part, Refusal::Shape);
    }
    dispatch::event(
        cfg, m, part, call, board, read, messages, stores, boards, elements,
    )
}

// A crash or a restart alone, of the party of a number, on the part whose places `names` gives: questions 1 to 5, 21, 6, 8 and 9. It touches no
// buffer, and none is lent: who keeps one party on several boards has it crash, or come back, on each.
pub fn crash_or_restart(
    cfg: Config,
    m: usize,
    part: Part,
    which: CrashOrRestart,
    party: u8,
) -> Change
    ensures { AloneChangePost cfg m part (call_of which party) result }
{
    let call = which.call(party);
    if let Err(why) = questions::alone(cfg, m, part, call) {
        return outcome::refused(part, why);
    }
    match which {
        CrashOrRestart::CrashServer => crash::server(cfg, part, call),
        CrashOrRestart::CrashClient => crash::client(cfg, part, call),
        CrashOrRestart::RestartServer => restart::server(cfg, part, call),
    }
}
