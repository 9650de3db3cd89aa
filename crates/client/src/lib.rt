// A client: its state by value; the board that it writes, the elements that it has received, its sends and a read's board lent by the
// host. Every function is proved, nothing is assumed, and no public function has a `requires`.
#![tactic(auto)]

ghost use Rattle.std.specs.Prelude.{List, ◌≡◌, ℕ};
ghost use Rattle.std.proofs.Math.Option.{none, some};
ghost use Rattle.config.specs.Questions.{first_no};
ghost use Rattle.config.specs.Refusal.{verdict_number};
ghost use Rattle.client.specs.Calls.{BeginPost, CrashPost, FreshPost, StepPost};
ghost use Rattle.protocol.specs.Boards.{board_of};
ghost use Rattle.client.specs.State.{lent};
ghost use Rattle.client.specs.Questions.{ask_begin_questions, begin_read_questions, begin_write_questions, state_questions};

use config::{Client, Config, Refusal};
use count::Taken;
use outcome::{accepted, begun, counted, in_phase, refused};
use questions::Sizes;
use tag::Tag;

// The highest number of a tag, and of an operation.
pub(crate) const HIGHEST_NUMBER: u32 = 4_294_967_295;

mod again;
mod count;
mod gather;
mod next;
mod outcome;
mod place;
mod questions;
mod send;
mod servers;
mod settle;
mod show;
mod zeros;

// Where a client stands in its operation. A set of servers is the bits of a number: bit s is server s.
#[derive(Clone, Copy, PartialEq, Eq)]
pub enum Phase {
    Idle,
    // It writes or reads; the highest tag answered so far; the servers counted.
    Asking {
        writes: bool,
        best: Tag,
        counted: u32,
    },
    PreWriting {
        tag: Tag,
        counted: u32,
    },
    FinalisingWrite {
        tag: Tag,
        counted: u32,
    },
    // The servers that sent an element are a set of their own.
    FinalisingRead {
        tag: Tag,
        counted: u32,
        sent: u32,
    },
    Down,
}

// A client: its own number, its operation number, its phase, the length of the board that it keeps to write, in use while it asks to write,
// and the lengths sent with the elements that it has received, that of server s at s - 1, in use while it finalises a read, of the servers
// that sent one.
#[derive(Clone, Copy, PartialEq, Eq)]
pub struct State {
    pub me: Client,
    pub operation: u32,
    pub phase: Phase,
    pub length: u16,
    pub lengths: [u16; 16],
}

// How an operation ends, if a call ends it. What a read shows is in the lent board: so many bytes, zeros after.
#[derive(Clone, Copy, PartialEq, Eq)]
pub enum Ended {
    Nothing,
    Written(Tag),
    Spent,
    Read { tag: Tag, length: u16 },
}

// What a call leaves: its verdict, the client, how many records stand at the front of the sends, and how the operation ended.
#[derive(Clone, Copy)]
pub struct Moved {
    pub verdict: Result<(), Refusal>,
    pub state: State,
    pub sent: usize,
    pub ended: Ended,
}

// A fresh client, and the verdict of its making. Where that is a refusal, the client is of no use.
#[derive(Clone, Copy)]
pub struct NewState {
    pub verdict: Result<(), Refusal>,
    pub state: State,
}

// Questions 1 to 5 and 21, and 6 of a state: the first that is answered no is the refusal.
pub fn ask(cfg: Config, state: State) -> Result<(), Refusal>
    ensures { verdict_number result ≡ first_no (state_questions cfg state) }
{
    cfg.ask()?;
    if !questions::within(cfg, state) {
        return Err(Refusal::Shape);
    }
    Ok(())
}

// The same and, of a client that is to begin, 9, 10 and 11.
pub fn ask_begin(cfg: Config, state: State) -> Result<(), Refusal>
    ensures { verdict_number result ≡ first_no (ask_begin_questions cfg state) }
{
    ask(cfg, state)?;
    questions::idle(state)
}

// A fresh client is idle, its operation number 0: questions 1 to 5, 21, and 8, whether the client exists.
pub fn fresh(cfg: Config, me: Client) -> NewState
    ensures { FreshPost cfg me result }
{
    let state = State {
        me,
        operation: 0,
        phase: Phase::Idle,
        length: 0,
        lengths: [0; 16],
    };
    NewState {
        verdict: Client::new(cfg, me.number()).map(|_| ()),
        state,
    }
}

// Begins to write a board of a length, which the client keeps with zeros past it: questions 1 to 5, 21, 6, 19, 9, 10 and 11.
pub fn begin_write(
    cfg: Config,
    state: State,
    length: u16,
    board: &[u8],
    kept: &mut [u8],
    sends: &mut [u8],
) -> Moved
    ensures { (es : List ℕ) → BeginPost cfg (first_no (begin_write_questions cfg state length board.now kept.old sends.old)) state (some (board_of length board.now)) kept.old kept.new es sends.old sends.new result }
{
    let asked = questions::begin_write(cfg, state, length, board.len(), kept.len(), sends.len());
    if let Err(why) = asked {
        return refused(state, why);
    }
    copies::copy(board, kept);
    zeros::cut(length, kept);
    send::announce(cfg, begun(state, true, length), kept, sends)
}

// Begins to read: questions 1 to 5, 21, 6, 9, 10 and 11.
pub fn begin_read(cfg: Config, state: State, sends: &mut [u8]) -> Moved
    ensures { (kept es : List ℕ) → BeginPost cfg (first_no (begin_read_questions cfg state sends.old)) state none kept kept es sends.old sends.new result }
{
    if let Err(why) = questions::begin_read(cfg, state, sends.len()) {
        return refused(state, why);
    }
    again::ask_to_read(cfg, state, sends)
}

// The step on a record: questions 1 to 5, 21, 6, 12, 16 and 14. The answer is counted, and the client goes on if it has enough; where it
// tells that the element was cleared, the client asks again.
pub fn step(
    cfg: Config,
    state: State,
    message: &[u8],
    kept: &[u8],
    elements: &mut [u8],
    sends: &mut [u8],
    board: &mut [u8],
) -> Moved
    ensures { StepPost cfg state message.now (lent kept.now elements.old sends.old board.old) (lent kept.now elements.new sends.new board.new) result }
{
    let sizes = Sizes {
        kept: kept.len(),
        elements: elements.len(),
        sends: sends.len(),
        board: board.len(),
    };
    match questions::receive(cfg, state, message, sizes) {
        Err(why) => refused(state, why),
        Ok(h) => {
            let Some(taken) = count::count(cfg, state, h) else {
                return refused(state, Refusal::NotAwaited);
            };
            match taken {
                Taken::Cleared => again::ask_again(cfg, state, sends),
                Taken::Counted(phase) => {
                    place::take(cfg, h, message, elements);
                    settle::settle(cfg, counted(state, phase, h), kept, elements, sends, board)
                }
            }
        }
    }
}

// Crashes a client: questions 1 to 5, 21, 6 and 9.
pub fn crash(cfg: Config, state: State) -> Moved
    ensures { CrashPost cfg state result }
{
    if let Err(why) = ask(cfg, state) {
        return refused(state, why);
    }
    let phase = state.phase;
    let Phase::Down = phase else {
        return accepted(in_phase(state, Phase::Down), 0, Ended::Nothing);
    };
    refused(state, Refusal::UpOrDown)
}
