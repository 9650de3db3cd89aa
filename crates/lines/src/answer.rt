// The line of an event.
ghost use Rattle.std.specs.Prelude.{◌≡◌, ◌+◌, ◌*◌, ◌≤◌, length, take};
ghost use Rattle.parties.specs.Acts.{answer_of};
ghost use Rattle.lines.specs.Line.{bytes_of, line_of, refused_of, said_of, shown_of, tag_of, written_of};
ghost use Rattle.lines.specs.Text.{Appended};

use super::text;
use parties::Answer;
use tag::Tag;

// A tag, with a blank before each part.
fn tagged(tag: Tag, out: &mut [u8], at: usize) -> usize
    requires { at + 42 ≤ length out.old }
    ensures { Appended out.old at (tag_of tag) out.new result × (result ≤ at + 42) }
{
    let number = text::word(b" ", out, at);
    let after = text::decimal(tag.number as u64, out, number);
    let client = text::word(b" ", out, after);
    text::decimal(tag.client as u64, out, client)
}

// A write that ended.
fn written(tag: Tag, out: &mut [u8], at: usize) -> usize
    requires { at + 64 ≤ length out.old }
    ensures { Appended out.old at (written_of tag) out.new result × (result ≤ at + 64) }
{
    let after = text::word(b" written", out, at);
    let end = tagged(tag, out, after);
    text::word(b"\n", out, end)
}

// A blank and the bytes read, as many as the length says; nothing of none.
fn board(long: u16, read: &[u8], out: &mut [u8], at: usize) -> usize
    requires { at + (1 + 2 * length read.now) ≤ length out.old }
    ensures { Appended out.old at (bytes_of (take long read.now)) out.new result × (result ≤ at + (1 + 2 * length read.now)) }
{
    let end = (long as usize).min(read.len());
    if end == 0 {
        return at;
    }
    let digits = text::word(b" ", out, at);
    text::hex(&read[..end], out, digits)
}

// A read that ended.
fn shown(tag: Tag, long: u16, read: &[u8], out: &mut [u8], at: usize) -> usize
    requires { at + (64 + 2 * length read.now) ≤ length out.old }
    ensures { Appended out.old at (shown_of tag (record { length = long; bytes = read.now })) out.new result × (result ≤ at + (64 + 2 * length read.now)) }
{
    let after = text::word(b" read", out, at);
    let bytes = tagged(tag, out, after);
    let end = board(long, read, out, bytes);
    text::word(b"\n", out, end)
}

// A refusal, by its number.
fn refused(number: u8, out: &mut [u8], at: usize) -> usize
    requires { at + 64 ≤ length out.old }
    ensures { Appended out.old at (refused_of number) out.new result × (result ≤ at + 64) }
{
    let after = text::word(b" no ", out, at);
    let end = text::decimal(number as u64, out, after);
    text::word(b"\n", out, end)
}

// What follows the count.
fn said(answer: Answer, read: &[u8], out: &mut [u8], at: usize) -> usize
    requires { at + (64 + 2 * length read.now) ≤ length out.old }
    ensures { Appended out.old at (said_of (answer_of answer read.now)) out.new result × (result ≤ at + (64 + 2 * length read.now)) }
{
    match answer {
        Answer::Nothing => text::word(b" ok\n", out, at),
        Answer::Written { client: _, tag } => written(tag, out, at),
        Answer::Spent { client: _ } => text::word(b" spent\n", out, at),
        Answer::Read {
            client: _,
            tag,
            length,
        } => shown(tag, length, read, out, at),
        Answer::No(why) => refused(why.number(), out, at),
    }
}

// Puts an event's line into a buffer from a place on, and answers the place after it. The board of a read is as many of the bytes read as its
// length says.
pub(crate) fn line(count: u64, answer: Answer, read: &[u8], out: &mut [u8], at: usize) -> usize
    requires { at + (84 + 2 * length read.now) ≤ length out.old }
    ensures { Appended out.old at (line_of count (answer_of answer read.now)) out.new result × (result ≤ at + (84 + 2 * length read.now)) }
{
    let after = text::decimal(count, out, at);
    said(answer, read, out, after)
}
