// The questions of a client's calls.
ghost use Rattle.std.specs.Prelude.{◌≡◌, ◌+◌, true, cond, ◌&&◌, ◌∷◌, eqb, leb, get_or};
ghost use Rattle.laws.specs.Below.{all_below};
ghost use Rattle.config.specs.declared.Config.{Config};
ghost use Rattle.config.specs.Config.{Valid, board_length};
ghost use Rattle.config.specs.Number.{client_number};
ghost use Rattle.config.specs.Questions.{ask as question, first_no};
ghost use Rattle.config.specs.Refusal.{verdict_number};
ghost use Rattle.record.specs.Kinds.{is_for_client};
ghost use Rattle.protocol.specs.Client.{begin_questions};
ghost use Rattle.client.specs.Servers.{member};
ghost use Rattle.client.specs.State.{bare, lengths_within, phase_within, state_within, tag_within};
ghost use Rattle.client.specs.Questions.{call_questions, is_sends, write_sized};
ghost use Rattle.client.specs.inner.Questions.{ReceivePost, sized};

use super::{HIGHEST_NUMBER, Phase, State, ask, servers};
use config::{Config, RECORD, Refusal};
use record::Header;
use tag::Tag;

// The lengths of the buffers that a step is lent.
#[derive(Clone, Copy)]
pub(crate) struct Sizes {
    pub kept: usize,
    pub elements: usize,
    pub sends: usize,
    pub board: usize,
}

// Questions 1 to 5, 21, 6, 19, 9, 10 and 11 of begin write: the first that is answered no is the refusal.
pub(crate) fn begin_write(
    cfg: Config,
    x: State,
    length: u16,
    board: usize,
    kept: usize,
    sends: usize,
) -> Result<(), Refusal>
    ensures { verdict_number result ≡ first_no (call_questions cfg (write_sized cfg board kept sends) x (question 19 (leb length (board_length cfg)) ∷ begin_questions (bare cfg x))) }
{
    ask(cfg, x)?;
    if !write_sized(cfg, board, kept, sends) {
        return Err(Refusal::Shape);
    }
    if board < length as usize {
        return Err(Refusal::Length);
    }
    idle(x)
}

// The same of begin read.
pub(crate) fn begin_read(cfg: Config, x: State, sends: usize) -> Result<(), Refusal>
    ensures { verdict_number result ≡ first_no (call_questions cfg (is_sends cfg sends) x (begin_questions (bare cfg x))) }
{
    ask(cfg, x)?;
    if sends != RECORD * cfg.n {
        return Err(Refusal::Shape);
    }
    idle(x)
}

// Questions 1 to 5, 21, 6, 12 and 16 of a step: the header of an answer for this client, or the refusal.
pub(crate) fn receive(
    cfg: Config,
    x: State,
    message: &[u8],
    sizes: Sizes,
) -> Result<Header, Refusal>
    ensures { ReceivePost cfg x message.now sizes result }
{
    ask(cfg, x)?;
    if !step_sized(cfg, message.len(), sizes) {
        return Err(Refusal::Shape);
    }
    let h = record::read(cfg, message)?;
    if !is_for(x, h) {
        return Err(Refusal::Misdirected);
    }
    Ok(h)
}

fn step_sized(cfg: Config, message: usize, sizes: Sizes) -> bool
    requires { Valid cfg }
    ensures { result ≡ sized cfg message sizes }
{
    let v = cfg.k * cfg.e;
    if message != RECORD {
        return false;
    }
    if sizes.kept != v {
        return false;
    }
    if sizes.elements != cfg.n * cfg.e {
        return false;
    }
    if sizes.sends != RECORD * cfg.n {
        return false;
    }
    sizes.board == v
}

// Question 16: whether a record is for this client, in a kind that it receives.
fn is_for(x: State, h: Header) -> bool
    ensures { result ≡ (eqb (client_number h.client) (client_number x.me) && is_for_client h.kind) }
{
    let me = x.me;
    let client = h.client;
    if client.number() != me.number() {
        return false;
    }
    let kind = h.kind;
    !kind.is_for_server()
}

fn write_sized(cfg: Config, board: usize, kept: usize, sends: usize) -> bool
    requires { Valid cfg }
    ensures { result ≡ write_sized cfg board kept sends }
{
    let v = cfg.k * cfg.e;
    if board != v {
        return false;
    }
    if kept != v {
        return false;
    }
    sends == RECORD * cfg.n
}

// Whether the numbers of a state are within their limits: part of question 6.
pub(crate) fn within(cfg: Config, x: State) -> bool
    requires { Valid cfg }
    ensures { result ≡ state_within cfg x }
{
    let me = x.me;
    if !cfg.client_exists(me.number() as usize) {
        return false;
    }
    let phase = x.phase;
    if !phase_within(cfg, phase) {
        return false;
    }
    lengths_within(cfg, x)
}

// Whether the lengths in use are at most V: that of a board to write, those of the elements received.
fn lengths_within(cfg: Config, x: State) -> bool
    requires { Valid cfg }
    ensures { result ≡ lengths_within cfg x.phase x.length x.lengths }
{
    let phase = x.phase;
    match phase {
        Phase::Asking {
            writes,
            best: _,
            counted: _,
        } => length_within(cfg.k * cfg.e, writes, x.length),
        Phase::FinalisingRead {
            tag: _,
            counted: _,
            sent,
        } => {
            let lengths = x.lengths;
            sent_within(cfg, sent, lengths)
        }
        _ => true,
    }
}

// Whether a length, if it is in use, is at most v.
fn length_within(v: usize, used: bool, length: u16) -> bool
    ensures { result ≡ cond used (leb length v) true }
{
    if !used {
        return true;
    }
    length as usize <= v
}

// Whether those of the servers that sent an element are at most V.
fn sent_within(cfg: Config, sent: u32, lengths: [u16; 16]) -> bool
    requires { Valid cfg }
    ensures { result ≡ all_below cfg.n (λ i. cond (member sent (i + 1)) (leb (get_or lengths i 0) (board_length cfg)) true) }
{
    let v = cfg.k * cfg.e;
    for i in 0..cfg.n {
        if !length_within(v, servers::has(sent, (i + 1) as u8), lengths[i]) {
            return false;
        }
    }
    true
}

fn phase_within(cfg: Config, phase: Phase) -> bool
    requires { Valid cfg }
    ensures { result ≡ phase_within cfg phase }
{
    match phase {
        Phase::Asking {
            writes: _,
            best,
            counted,
        } => tag_within(cfg, best, counted),
        Phase::PreWriting { tag, counted } => tag_within(cfg, tag, counted),
        Phase::FinalisingWrite { tag, counted } => tag_within(cfg, tag, counted),
        Phase::FinalisingRead { tag, counted, sent } => {
            if !tag_within(cfg, tag, counted) {
                return false;
            }
            servers::within(cfg.n, sent)
        }
        _ => true,
    }
}

fn tag_within(cfg: Config, tag: Tag, counted: u32) -> bool
    requires { Valid cfg }
    ensures { result ≡ tag_within cfg tag counted }
{
    if !tag.allowed(cfg.c) {
        return false;
    }
    servers::within(cfg.n, counted)
}

// Questions 9, 10 and 11: the first that is answered no is the refusal.
pub(crate) fn idle(x: State) -> Result<(), Refusal>
    ensures { (cfg : Config) → verdict_number result ≡ first_no (begin_questions (bare cfg x)) }
{
    let phase = x.phase;
    match phase {
        Phase::Idle => {
            if x.operation < HIGHEST_NUMBER {
                return Ok(());
            }
            Err(Refusal::Exhausted)
        }
        Phase::Down => Err(Refusal::UpOrDown),
        _ => Err(Refusal::Busy),
    }
}
