// The buffer of the input. What is not used yet stands at its front.
ghost use Rattle.std.specs.Prelude.{◌≡◌, ◌+◌, ◌-◌, ◌≤◌, length, take, drop};

use std::io::{Read, Stdin};

// Reads behind the front till the buffer is filled up to a size or the input ends, and answers how far it is filled.
pub(crate) fn filled(stdin: Stdin, front: usize, size: usize, input: &mut [u8]) -> usize
    requires { front ≤ length input.old }
    ensures { (front ≤ result) × (result ≤ length input.old) × (take front input.new ≡ take front input.old) }
{
    let mut end = front;
    // A turn goes on by as many bytes as a read gives.
    while end < size {
        let more = more_at(stdin, end, input);
        if more == 0 {
            break;
        }
        end += more;
    }
    end
}

// Reads once into the buffer from a place on, and answers how many bytes came: 0 at the end of the input, and where the read fails.
fn more_at(mut stdin: Stdin, at: usize, input: &mut [u8]) -> usize
    requires { at ≤ length input.old }
    ensures { (at + result ≤ length input.old) × (take at input.new ≡ take at input.old) }
{
    let part = &mut input[at..];
    match stdin.read(part) {
        Ok(more) => more,
        Err(_) => 0,
    }
}

// Moves what is behind the bytes taken, up to an end, to the front, and answers how much it is.
pub(crate) fn kept(taken: usize, end: usize, input: &mut [u8]) -> usize
    requires { (taken ≤ end) × (end ≤ length input.old) }
    ensures { (result ≡ end - taken) × (take result input.new ≡ take result (drop taken input.old)) }
{
    input.copy_within(taken..end, 0);
    end - taken
}
