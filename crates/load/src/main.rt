// The program load: records for the program board, as many as stated, from a seed. Standard input has the count and the seed, 4 bytes each, the
// low one first; where it ends after the count the seed is the default, and what stands past both is not looked at. Standard output has the
// records, 7 bytes each. Of a seed of 0 standard error has `no 20`, of an input that ends elsewhere `short`, and nothing goes to standard output then.
// Every function is proved to be safe and to end, but for reading and writing, whose C functions' contracts are assumed. Of what is read and
// written no contract can say anything. What is proved besides: the blocks are the load's records in turn. That each is written once, and all
// of them, is tested.
#![tactic(auto)]

ghost use Rattle.std.specs.Prelude.{◌-◌, ◌≤◌, cond, not, ◌&&◌, ◌≡◌, eqb, length, take};
ghost use Rattle.events.specs.View.{lent};
ghost use Rattle.draws.specs.Draws.{NewGeneratorPost, default_seed};
ghost use Rattle.record.specs.Record.{little_endian};
ghost use Rattle.maker.specs.Calls.{bytes_for};
ghost use Rattle.maker.specs.Steps.{Along, MadeSo};
ghost use Rattle.load.specs.inner.Blocks.{MadeMost};

use config::Refusal;
use draws::Generator;
use lines::PROGRAM_RECORD;
use maker::Load;

// The records of a block, which is written at once.
const BLOCK: usize = 9362;

fn main() {
    let mut head = [0u8; 8];
    let got = io::read_full(0, &mut head);
    if is_short(got) {
        io::write_all(2, b"short\n");
        return;
    }
    let count = number(head[0], head[1], head[2], head[3]);
    let seed = number(head[4], head[5], head[6], head[7]);
    match generator(got, seed) {
        Ok(generator) => begin(generator, count as usize),
        Err(why) => refused(why.number()),
    }
}

// Whether so many bytes end before the count does, or within the seed.
fn is_short(got: usize) -> bool
    ensures { result ≡ (not (eqb got 4) && not (eqb got 8)) }
{
    got != 4 && got != 8
}

// A number of 4 bytes, the low one first.
fn number(a: u8, b: u8, c: u8, d: u8) -> u32
    ensures { result ≡ little_endian a b c d }
{
    record::layout::number(a, b, c, d)
}

// The generator of the seed that is given with the count, or of the default.
fn generator(got: usize, seed: u32) -> Result<Generator, Refusal>
    ensures { NewGeneratorPost (cond (eqb got 8) seed default_seed) result }
{
    if got == 8 {
        return Generator::new(seed);
    }
    Ok(Generator::default())
}

// The line of a refusal, by its number.
fn refused(no: u8) {
    io::write_all(2, b"no ");
    io::print_decimal(2, no as u64);
    io::write_all(2, b"\n");
}

// Makes so many records from the program's fresh rig, and writes them.
fn begin(generator: Generator, count: usize) {
    let mut messages = [0u8; 5120];
    let mut stores = [0u8; 3];
    let mut boards = [0u8; 2];
    let mut elements = [0u8; 6];
    // These have the program's lengths, so nothing is refused.
    let begun = maker::begin(
        generator,
        &mut messages,
        &mut stores,
        &mut boards,
        &mut elements,
    );
    let mut out = io::large_buffer();
    blocks(
        begun.load,
        count,
        &mut out,
        &mut messages,
        &mut stores,
        &mut boards,
        &mut elements,
    );
}

// Makes the records by blocks and writes each, till all are made or a write fails. Answers the load that is left.
fn blocks(
    mut load: Load,
    count: usize,
    out: &mut [u8],
    messages: &mut [u8],
    stores: &mut [u8],
    boards: &mut [u8],
    elements: &mut [u8],
) -> Load
    requires { Along load.rig (lent messages.old stores.old boards.old elements.old) × (65536 ≤ length out.old) }
    ensures { MadeMost load (lent messages.old stores.old boards.old elements.old) count result (lent messages.new stores.new boards.new elements.new) }
{
    let mut left = count;
    // A turn takes off a block, and all that is left where a write failed (`still`).
    while left > 0 {
        let n = left.min(BLOCK);
        load = block(load, n, out, messages, stores, boards, elements);
        left = still(left, n, wrote(n, out));
    }
    load
}

// A block: the next records, at the front of a buffer.
fn block(
    load: Load,
    n: usize,
    out: &mut [u8],
    messages: &mut [u8],
    stores: &mut [u8],
    boards: &mut [u8],
    elements: &mut [u8],
) -> Load
    requires { Along load.rig (lent messages.old stores.old boards.old elements.old) × (bytes_for n ≤ length out.old) }
    ensures { MadeSo load (lent messages.old stores.old boards.old elements.old) n (take (bytes_for n) out.new) result (lent messages.new stores.new boards.new elements.new) }
{
    let end = n * PROGRAM_RECORD;
    let made = maker::records(load, n, &mut out[..end], messages, stores, boards, elements);
    made.load
}

// Writes so many records from the front of a buffer, and answers whether that went well.
fn wrote(n: usize, out: &[u8]) -> bool
    requires { bytes_for n ≤ length out.now }
{
    let end = n * PROGRAM_RECORD;
    io::write_all(1, &out[..end])
}

// The records that are left to make: none where a write failed.
fn still(left: usize, n: usize, wrote: bool) -> usize
    requires { n ≤ left }
    ensures { result ≡ cond wrote (left - n) 0 }
{
    if wrote { left - n } else { 0 }
}
