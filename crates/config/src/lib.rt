// The configuration of document 01, with the ranks of document 02, and the boards' shares of the messages in flight: its questions 1 to 5, 21
// and 22, the quorum, the lengths of buffers, the numbers of servers and clients, and the names of the refusals. Every function is proved,
// nothing is assumed, and no public function has a `requires`.
#![tactic(auto)]

ghost use Rattle.std.specs.Prelude.{[], ◌∷◌, ◌++◌, ◌≡◌, min, ◌≤◌, leb};
ghost use Rattle.config.specs.Config.{most_clients, questions, questions_to5, quorum_of, rank as rank_of, ranks_within, rig_questions};
ghost use Rattle.config.specs.Lengths.{lengths_of, messages_length};
ghost use Rattle.config.specs.Number.{NewClientPost, NewServerPost, client_number, server_number};
ghost use Rattle.config.specs.Questions.{ask as question, first_no, last_question, within as inside};
ghost use Rattle.config.specs.Refusal.{clamped, passing15, refusal_number, verdict_number};
ghost use Rattle.config.specs.Room.{most_boards, room_questions, shares_sum};

// The most servers.
pub const MOST_SERVERS: usize = 16;

// The most clients.
pub const MOST_CLIENTS: usize = 16;

// The greatest D.
pub const MOST_DEPTH: usize = 7;

// The greatest E.
pub const MOST_WIDTH: usize = 64;

// The greatest M.
pub const MOST_MESSAGES: usize = 512;

// The most boards.
pub const MOST_BOARDS: usize = 8;

// The highest rank.
pub const HIGHEST_RANK: u8 = 3;

// The bytes of a message record.
pub const RECORD: usize = 80;

// Questions are numbered from 1 to this.
const LAST_QUESTION: u8 = 28;

// N servers, numbered from 1; the elements of any k of them give a board back; a server keeps D tags besides the newest;
// an element has E bytes; C clients, numbered from 1; the rank of client 1 is the first of the ranks, and those past C are not looked at. The
// numbers may have any value: the questions are asked of them.
#[derive(Clone, Copy)]
pub struct Config {
    pub n: usize,
    pub k: usize,
    pub d: usize,
    pub e: usize,
    pub c: usize,
    pub ranks: [u8; 16],
}

// The messages in flight: at most M; so many boards share them, numbered from 1, and each has a guaranteed share, that of board 1 first. Shares
// past the boards are not looked at. The numbers may have any value.
#[derive(Clone, Copy)]
pub struct Room {
    pub m: usize,
    pub boards: usize,
    pub shares: [usize; 8],
}

// The least configuration: one server and one client, of rank 0.
pub const LEAST: Config = Config {
    n: 1,
    k: 1,
    d: 0,
    e: 1,
    c: 1,
    ranks: [0; 16],
};

impl Config {
    // Questions 1 to 5 and 21: the first that is answered no is the refusal.
    pub fn ask(self) -> Result<(), Refusal>
        ensures { verdict_number result ≡ first_no (questions self) }
    {
        self.ask_rig(1)
    }

    // The same as the rig puts them: question 5 is of C and of M, the most messages in flight.
    pub fn ask_rig(self, m: usize) -> Result<(), Refusal>
        ensures { verdict_number result ≡ first_no (rig_questions self m) }
    {
        to_five(self)?;
        if !within(1, MOST_MESSAGES, m) {
            return Err(Refusal::Clients);
        }
        if !ranks_within(self) {
            return Err(Refusal::Rank);
        }
        Ok(())
    }

    // Questions 1 to 5, 21 and 22 as the rig puts them: 22 is of the boards and of their shares of the messages.
    pub fn ask_room(self, room: Room) -> Result<(), Refusal>
        ensures { verdict_number result ≡ first_no (room_questions self room) }
    {
        self.ask_rig(room.m)?;
        if !within(1, MOST_BOARDS, room.boards) {
            return Err(Refusal::Boards);
        }
        if !shares_fit(room) {
            return Err(Refusal::Boards);
        }
        Ok(())
    }

    // The rank of a client; 0 where there is none of this number.
    pub fn rank(self, c: u8) -> u8
        ensures { result ≡ rank_of self c }
    {
        let client = c as usize;
        if !within(1, self.c, client) {
            return 0;
        }
        if MOST_CLIENTS < client {
            return 0;
        }
        self.ranks[client - 1]
    }

    // Is there a server of this number, 1 to N?
    pub fn server_exists(self, s: usize) -> bool
        ensures { result ≡ inside 1 self.n s }
    {
        within(1, self.n, s)
    }

    // Is there a client of this number, 1 to C?
    pub fn client_exists(self, c: usize) -> bool
        ensures { result ≡ inside 1 self.c c }
    {
        within(1, self.c, c)
    }

    // The quorum, (N + k) / 2 rounded up. It wraps at no numbers.
    pub fn quorum(self) -> usize
        ensures { result ≡ quorum_of self }
    {
        self.n / 2 + self.k / 2 + (self.n % 2 + self.k % 2 + 1) / 2
    }

    // The lengths that question 6 asks for, with M given: all are 0 where questions 1 to 5 and 21 refuse, and that of the messages where M
    // is out of range.
    pub fn lengths(self, m: usize) -> Lengths
        ensures { result ≡ lengths_of self m }
    {
        let Ok(()) = self.ask() else {
            return Lengths {
                board: 0,
                store: 0,
                sends: 0,
                elements: 0,
                messages: 0,
            };
        };
        Lengths {
            board: self.k * self.e,
            store: (self.d + 1) * self.e,
            sends: RECORD * self.n,
            elements: self.n * self.e,
            messages: messages_length(m),
        }
    }
}

// The bytes of M records; 0 where M is out of range.
fn messages_length(m: usize) -> usize
    ensures { result ≡ messages_length m }
{
    if !within(1, MOST_MESSAGES, m) {
        return 0;
    }
    RECORD * m
}

// The bytes of a board, of a server's store, of a client's sends, of the elements that a client has received, and of the
// messages in flight.
#[derive(Clone, Copy)]
pub struct Lengths {
    pub board: usize,
    pub store: usize,
    pub sends: usize,
    pub elements: usize,
    pub messages: usize,
}

// Questions 1 to 5.
fn to_five(cfg: Config) -> Result<(), Refusal>
    ensures { verdict_number result ≡ first_no (questions_to5 cfg) }
{
    if !within(1, MOST_SERVERS, cfg.n) {
        return Err(Refusal::Servers);
    }
    if !within(1, cfg.n, cfg.k) {
        return Err(Refusal::Threshold);
    }
    if MOST_DEPTH < cfg.d {
        return Err(Refusal::Depth);
    }
    if !within(1, MOST_WIDTH, cfg.e) {
        return Err(Refusal::Width);
    }
    if !within(1, MOST_CLIENTS, cfg.c) {
        return Err(Refusal::Clients);
    }
    Ok(())
}

// Question 21: whether the rank of each client, 1 to C, is at most 3.
fn ranks_within(cfg: Config) -> bool
    requires { cfg.c ≤ most_clients }
    ensures { result ≡ ranks_within cfg }
{
    for rank in &cfg.ranks[..cfg.c] {
        if HIGHEST_RANK < *rank {
            return false;
        }
    }
    true
}

// Question 22: whether the boards' shares add to at most M. They are taken from M one by one, for their sum could wrap.
fn shares_fit(room: Room) -> bool
    requires { room.boards ≤ most_boards }
    ensures { result ≡ leb (shares_sum room) room.m }
{
    let mut left = room.m;
    for share in &room.shares[..room.boards] {
        if left < *share {
            return false;
        }
        left -= *share;
    }
    true
}

// Questions 1 to 5 and 21, and one more: is x within 1 to `high`?
fn ask_then(cfg: Config, why: Refusal, high: usize, x: usize) -> Result<(), Refusal>
    ensures { verdict_number result ≡ first_no (questions cfg ++ question (refusal_number why) (inside 1 high x) ∷ []) }
{
    cfg.ask()?;
    if !within(1, high, x) {
        return Err(why);
    }
    Ok(())
}

// low ≤ x ≤ high
fn within(low: usize, high: usize, x: usize) -> bool
    ensures { result ≡ inside low high x }
{
    if x < low {
        return false;
    }
    x <= high
}

// A server's number, 1 to N of the configuration that it was made for.
#[derive(Clone, Copy, PartialEq, Eq, Debug)]
pub struct Server(u8);

// A client's number, 1 to C of the configuration that it was made for.
#[derive(Clone, Copy, PartialEq, Eq, Debug)]
pub struct Client(u8);

// The first server, which every configuration has.
pub const FIRST_SERVER: Server = Server(1);

// The first client, which every configuration has.
pub const FIRST_CLIENT: Client = Client(1);

impl Server {
    // The server of a number: questions 1 to 5, 21, and 8, whether it exists.
    pub fn new(cfg: Config, s: u8) -> Result<Server, Refusal>
        ensures { NewServerPost cfg s result }
    {
        ask_then(cfg, Refusal::Missing, cfg.n, s as usize)?;
        Ok(Server(s))
    }

    pub fn number(self) -> u8
        ensures { result ≡ server_number self }
    {
        self.0
    }
}

impl Client {
    // The client of a number: questions 1 to 5, 21, and 8, whether it exists.
    pub fn new(cfg: Config, c: u8) -> Result<Client, Refusal>
        ensures { NewClientPost cfg c result }
    {
        ask_then(cfg, Refusal::Missing, cfg.c, c as usize)?;
        Ok(Client(c))
    }

    pub fn number(self) -> u8
        ensures { result ≡ client_number self }
    {
        self.0
    }
}

// What the questions are about: a refusal names the first that was answered no. 1 to 18, without 15, are document 01's; 19 to 28 are document
// 02's.
#[derive(Clone, Copy, PartialEq, Eq, Debug)]
pub enum Refusal {
    // 1: N is out of range.
    Servers,
    // 2: k is out of range.
    Threshold,
    // 3: D is out of range.
    Depth,
    // 4: E is out of range.
    Width,
    // 5: C is out of range, or in the rig M.
    Clients,
    // 6: a buffer's length, or a count, number or tag of the state.
    Shape,
    // 7: no such event.
    Event,
    // 8: no such client, server or position.
    Missing,
    // 9: the party is down or, of a restart, the server is up.
    UpOrDown,
    // 10: the client is in an operation.
    Busy,
    // 11: its operation numbers are used up.
    Exhausted,
    // 12: the record handed over is ill formed.
    IllFormed,
    // 13: more than M would be in flight.
    Full,
    // 14: the answer is not awaited.
    NotAwaited,
    // 16: the record is for another party, or of a kind that it does not receive.
    Misdirected,
    // 17: server numbers do not rise strictly within 1 to N.
    NotRising,
    // 18: decode, fewer than k elements; encode, s is not within 1 to N.
    Elements,
    // 19: the write's length is above V.
    Length,
    // 20: the seed is 0.
    Seed,
    // 21: a rank is above 3.
    Rank,
    // 22: not 1 to 8 boards, shares that add to more than M, or no such board.
    Boards,
    // 23: the elements do not all belong to one board.
    Contradiction,
    // 24: a saved store is not of its form.
    Saved,
    // 25: s is not within 1 to N, or the given stores are none or not of distinct other servers.
    Sources,
    // 26: the beginning client does not hold the right.
    Right,
    // 27: e is above 7, or there are fewer than k + 2 × e elements.
    Errors,
    // 28: there is no board from which at most e of them differ.
    Uncorrectable,
}

// The refusals by their numbers; 0 is taken for 1, and 15, which none has, for 16.
const REFUSALS: [Refusal; 29] = [
    Refusal::Servers,
    Refusal::Servers,
    Refusal::Threshold,
    Refusal::Depth,
    Refusal::Width,
    Refusal::Clients,
    Refusal::Shape,
    Refusal::Event,
    Refusal::Missing,
    Refusal::UpOrDown,
    Refusal::Busy,
    Refusal::Exhausted,
    Refusal::IllFormed,
    Refusal::Full,
    Refusal::NotAwaited,
    Refusal::Misdirected,
    Refusal::Misdirected,
    Refusal::NotRising,
    Refusal::Elements,
    Refusal::Length,
    Refusal::Seed,
    Refusal::Rank,
    Refusal::Boards,
    Refusal::Contradiction,
    Refusal::Saved,
    Refusal::Sources,
    Refusal::Right,
    Refusal::Errors,
    Refusal::Uncorrectable,
];

impl Refusal {
    // The number of a refusal.
    pub fn number(self) -> u8
        ensures { result ≡ refusal_number self }
    {
        match self {
            Refusal::Servers => 1,
            Refusal::Threshold => 2,
            Refusal::Depth => 3,
            Refusal::Width => 4,
            Refusal::Clients => 5,
            Refusal::Shape => 6,
            Refusal::Event => 7,
            Refusal::Missing => 8,
            Refusal::UpOrDown => 9,
            Refusal::Busy => 10,
            Refusal::Exhausted => 11,
            Refusal::IllFormed => 12,
            Refusal::Full => 13,
            Refusal::NotAwaited => 14,
            Refusal::Misdirected => 16,
            Refusal::NotRising => 17,
            Refusal::Elements => 18,
            Refusal::Length => 19,
            Refusal::Seed => 20,
            Refusal::Rank => 21,
            Refusal::Boards => 22,
            Refusal::Contradiction => 23,
            Refusal::Saved => 24,
            Refusal::Sources => 25,
            Refusal::Right => 26,
            Refusal::Errors => 27,
            Refusal::Uncorrectable => 28,
        }
    }

    // The refusal of a number; a number past either end is taken for that end, and 15, which no refusal has, for 16.
    pub fn of(no: u8) -> Refusal
        ensures { refusal_number result ≡ clamped no }
    {
        if LAST_QUESTION < no {
            return Refusal::Uncorrectable;
        }
        REFUSALS[no as usize]
    }
}

// The verdict of a refusal's number, or of 0.
pub fn verdict_of(no: u8) -> Result<(), Refusal>
    ensures { verdict_number result ≡ min (passing15 no) last_question }
{
    if no == 0 {
        return Ok(());
    }
    Err(Refusal::of(no))
}

// The number of a verdict: a refusal's, or 0.
pub fn verdict_number(verdict: Result<(), Refusal>) -> u8
    ensures { result ≡ verdict_number verdict }
{
    match verdict {
        Ok(()) => 0,
        Err(why) => why.number(),
    }
}
