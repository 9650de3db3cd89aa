// A client's state as 56 bytes, in rows of 8: its number, phase and operation number; the phase's tag, and the length of the board that it keeps;
// the servers counted and those that sent an element; and the lengths sent with their elements.
ghost use Rattle.std.specs.Prelude.{◌≡◌, cond, ◌++◌, ◌+◌, ◌<◌, ◌≤◌, length as long};
ghost use Rattle.record.specs.Record.{four_bytes};
ghost use Rattle.states.specs.Clients.{PackPost, UnpackPost, head_row, numbers_of, packed_length, sent_length, state_of};
ghost use Rattle.states.specs.inner.Clients.{RefusedPost, ToldPre, lengths_row, plain_of, row_at};

use client::{Phase, State};
use config::{Client, Config, FIRST_CLIENT, Refusal};
use record::layout;
use tag::Tag;

// The bytes of a state.
pub const LENGTH: usize = 56;

// What unpacking gives: its verdict and the state, which stands beside it, for `UnpackPost` says of a refusal too which it is: that of zeros.
#[derive(Clone, Copy)]
pub struct Unpacked {
    pub verdict: Result<(), Refusal>,
    pub state: State,
}

// A phase as numbers, 0 for what it does not have: which it is, whether it writes, its tag, the servers counted, those that sent an element.
#[derive(Clone, Copy)]
pub struct Numbers {
    pub which: u8,
    pub writes: bool,
    pub tag: Tag,
    pub counted: u32,
    pub sent: u32,
}

// The bytes of a state.
pub fn pack(state: State) -> [u8; 56]
    ensures { PackPost state result }
{
    let phase = state.phase;
    let x = numbers_of(phase);
    let mut out = [0u8; LENGTH];
    for i in 0..7 {
        let from = 8 * i;
        let end = from + 8;
        let r = row(state, x, i);
        copies::copy(&r, &mut out[from..end]);
    }
    out
}

// A phase as numbers.
fn numbers_of(phase: Phase) -> Numbers
    ensures { result ≡ numbers_of phase }
{
    let none = Tag {
        number: 0,
        client: 0,
    };
    match phase {
        Phase::Idle => plain(0, none, 0),
        Phase::Asking {
            writes,
            best,
            counted,
        } => Numbers {
            which: 1,
            writes,
            tag: best,
            counted,
            sent: 0,
        },
        Phase::PreWriting { tag, counted } => plain(2, tag, counted),
        Phase::FinalisingWrite { tag, counted } => plain(3, tag, counted),
        Phase::FinalisingRead { tag, counted, sent } => Numbers {
            which: 4,
            writes: false,
            tag,
            counted,
            sent,
        },
        Phase::Down => plain(5, none, 0),
    }
}

// A phase that neither asks nor receives elements.
fn plain(which: u8, tag: Tag, counted: u32) -> Numbers
    ensures { result ≡ plain_of which tag counted }
{
    Numbers {
        which,
        writes: false,
        tag,
        counted,
        sent: 0,
    }
}

// Row i of a state.
fn row(state: State, x: Numbers, i: usize) -> [u8; 8]
    requires { i < 7 }
    ensures { result ≡ row_at state x i }
{
    if i == 0 {
        return head(state, x);
    }
    if i == 1 {
        let tag = x.tag;
        return crate::tag_row(tag, kept(x.writes, state.length));
    }
    if i == 2 {
        return sets(x.counted, x.sent);
    }
    let lengths = state.lengths;
    lengths_row(lengths, x.sent, 4 * (i - 3))
}

// The first row.
fn head(state: State, x: Numbers) -> [u8; 8]
    ensures { result ≡ head_row state x }
{
    let me = state.me;
    let flag = layout::flag(x.writes);
    let o = layout::four_bytes(state.operation);
    [me.number(), x.which, flag, 0, o[0], o[1], o[2], o[3]]
}

// A length that is in use; 0 where it is not.
fn kept(used: bool, length: u16) -> u16
    ensures { result ≡ cond used length 0 }
{
    if used {
        return length;
    }
    0
}

// Two sets of servers.
fn sets(counted: u32, sent: u32) -> [u8; 8]
    ensures { result ≡ four_bytes counted ++ four_bytes sent }
{
    let a = layout::four_bytes(counted);
    let b = layout::four_bytes(sent);
    [a[0], a[1], a[2], a[3], b[0], b[1], b[2], b[3]]
}

// The lengths of four servers, from place i on.
fn lengths_row(lengths: [u16; 16], sent: u32, i: usize) -> [u8; 8]
    requires { i + 4 ≤ 16 }
    ensures { result ≡ lengths_row lengths sent i }
{
    let a = crate::two_bytes(length_sent(lengths, sent, i));
    let b = crate::two_bytes(length_sent(lengths, sent, i + 1));
    let c = crate::two_bytes(length_sent(lengths, sent, i + 2));
    let d = crate::two_bytes(length_sent(lengths, sent, i + 3));
    [a[0], a[1], b[0], b[1], c[0], c[1], d[0], d[1]]
}

// The length at place i, which is that of server i + 1; 0 where that server sent no element.
fn length_sent(lengths: [u16; 16], sent: u32, i: usize) -> u16
    requires { i < 16 }
    ensures { result ≡ sent_length lengths sent i }
{
    kept((sent >> (i + 1)) % 2 == 1, lengths[i])
}

// The state of bytes: questions 1 to 5 and 21; 6, whether they are what packing the state that they tell gives.
pub fn unpack(cfg: Config, bytes: &[u8]) -> Unpacked
    ensures { UnpackPost cfg bytes.now result }
{
    if let Err(why) = cfg.ask() {
        return refused(why);
    }
    if bytes.len() != LENGTH {
        return refused(Refusal::Shape);
    }
    let Ok(me) = Client::new(cfg, bytes[0]) else {
        return refused(Refusal::Shape);
    };
    let state = told(me, bytes);
    let again = pack(state);
    if !crate::same(&again, bytes) {
        return refused(Refusal::Shape);
    }
    Unpacked {
        verdict: Ok(()),
        state,
    }
}

// A refusal, with the state that zeros tell, of client 1.
fn refused(why: Refusal) -> Unpacked
    ensures { RefusedPost why result }
{
    let mut zeros = [0u8; LENGTH];
    zeros[0] = 1;
    let state = told(FIRST_CLIENT, &zeros);
    Unpacked {
        verdict: Err(why),
        state,
    }
}

// The state that 56 bytes tell, of the client of the first.
fn told(me: Client, bytes: &[u8]) -> State
    requires { ToldPre me bytes.now }
    ensures { result ≡ state_of bytes.now }
{
    let mut lengths = [0u16; 16];
    for (i, length) in lengths.iter_mut().enumerate() {
        *length = crate::length_at(24 + 2 * i, bytes);
    }
    State {
        me,
        operation: crate::number_at(4, bytes),
        phase: phase_at(bytes),
        length: crate::length_at(13, bytes),
        lengths,
    }
}

// The phase that 56 bytes tell.
fn phase_at(bytes: &[u8]) -> Phase
    requires { long bytes.now ≡ packed_length }
    ensures { result ≡ (state_of bytes.now).phase }
{
    let tag = crate::tag_at(8, bytes);
    let counted = crate::number_at(16, bytes);
    let sent = crate::number_at(20, bytes);
    match bytes[1] {
        0 => Phase::Idle,
        1 => Phase::Asking {
            writes: bytes[2] == 1,
            best: tag,
            counted,
        },
        2 => Phase::PreWriting { tag, counted },
        3 => Phase::FinalisingWrite { tag, counted },
        4 => Phase::FinalisingRead { tag, counted, sent },
        _ => Phase::Down,
    }
}
