// What a client's step leaves besides buffers, as 12 bytes: how the operation ended, if it did, and how many records it sends.
ghost use Rattle.std.specs.Prelude.{◌<◌};
ghost use Rattle.host.specs.Outcome.{OutcomePost};
ghost use Rattle.host.specs.inner.Outcome.{RowPost};

use client::Ended;
use record::layout;
use tag::Tag;

// The bytes of an outcome.
pub(crate) const LENGTH: usize = 12;

// The bytes of an outcome: 0 nothing ended, 1 written, 2 spent, 3 read; the count of sends; a read's length; the tag of a write or a read.
pub(crate) fn pack(ended: Ended, sent: usize) -> [u8; 12]
    requires { sent < 256 }
    ensures { OutcomePost ended sent result }
{
    let none = Tag {
        number: 0,
        client: 0,
    };
    match ended {
        Ended::Nothing => row(0, sent, 0, none),
        Ended::Written(tag) => row(1, sent, 0, tag),
        Ended::Spent => row(2, sent, 0, none),
        Ended::Read { tag, length } => row(3, sent, length, tag),
    }
}

// The same of a kind of end.
fn row(how: u8, sent: usize, length: u16, tag: Tag) -> [u8; 12]
    requires { sent < 256 }
    ensures { RowPost how sent length tag result }
{
    let n = layout::four_bytes(tag.number);
    [
        how,
        sent as u8,
        (length % 256) as u8,
        (length / 256 % 256) as u8,
        n[0],
        n[1],
        n[2],
        n[3],
        tag.client,
        0,
        0,
        0,
    ]
}
