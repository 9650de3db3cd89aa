// What is printed of an event's answer.
use parties::Answer;
use tag::Tag;

// A word, and a tag.
fn tagged(word: &[u8], tag: Tag) {
    io::write_all(1, word);
    io::print_decimal(1, tag.number as u64);
    io::write_all(1, b" ");
    io::print_decimal(1, tag.client as u64);
}

// A byte of a board that is read, if the length has it.
fn byte(has: bool, b: u8) {
    if has {
        io::write_all(1, b" ");
        io::print_decimal(1, b as u64);
    }
}

// The rest of an event's line, behind its count. A read has as many bytes as its length says, of the two in its buffer: V is 1, and a
// length of 2 would show the one that is not lent.
pub(crate) fn print(answer: Answer, read: [u8; 2]) {
    match answer {
        Answer::Nothing => {
            io::write_all(1, b" ok");
        }
        Answer::Written { client: _, tag } => {
            tagged(b" written ", tag);
        }
        Answer::Spent { client: _ } => {
            io::write_all(1, b" spent");
        }
        Answer::Read {
            client: _,
            tag,
            length,
        } => {
            tagged(b" read ", tag);
            byte(0 < length, read[0]);
            byte(1 < length, read[1]);
        }
        Answer::No(why) => {
            io::write_all(1, b" no ");
            io::print_decimal(1, why.number() as u64);
        }
    }
    io::write_all(1, b"\n");
}
