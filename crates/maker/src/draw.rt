// What is drawn for a record.
ghost use Rattle.std.specs.Prelude.{◌≡◌};
ghost use Rattle.maker.specs.inner.Draw.{seen};
ghost use Rattle.maker.specs.Load.{drawn, position_by};

use draws::Generator;
use events::Call;

// An event as it is called, its board byte, and the generator after the draws.
#[derive(Clone, Copy)]
pub(crate) struct Drawn {
    pub(crate) call: Call,
    pub(crate) byte: u8,
    pub(crate) generator: Generator,
}

// Takes the draws of a record, with so many in flight: for the code, for the party or the position, and a write's for its board byte.
pub(crate) fn take(generator: Generator, in_flight: usize) -> Drawn
    ensures { seen result ≡ drawn generator.0 in_flight }
{
    let first = generator.next();
    let code = (first.draw % 5 + 1) as u8;
    let after = first.generator;
    let second = after.next();
    let party = (second.draw % 2 + 1) as u8;
    let generator = second.generator;
    if code == 1 {
        let third = generator.next();
        let call = called(1, party, 0, 1);
        let generator = third.generator;
        return Drawn {
            call,
            byte: (third.draw % 256) as u8,
            generator,
        };
    }
    let call = if code == 2 {
        called(2, party, 0, 0)
    } else {
        called(code, 0, position(in_flight, second.draw), 0)
    };
    Drawn {
        call,
        byte: 0,
        generator,
    }
}

// The position that a draw gives, with so many in flight.
fn position(in_flight: usize, by: u32) -> usize
    ensures { result ≡ position_by in_flight by }
{
    if in_flight == 0 {
        return 0;
    }
    by as usize % in_flight
}

// An event as it is called.
fn called(code: u8, party: u8, position: usize, length: u16) -> Call
    ensures { result ≡ record { code = code; party = party; position = position; length = length } }
{
    Call {
        code,
        party,
        position,
        length,
    }
}
