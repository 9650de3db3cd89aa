// The bytes of a board past its length.
ghost use Rattle.std.specs.Prelude.{◌≡◌};
ghost use Rattle.protocol.specs.Boards.{cut as cut_at};

// Makes them zero.
pub(crate) fn cut(length: u16, board: &mut [u8])
    ensures { board.new ≡ cut_at length board.old }
{
    let from = length as usize;
    if from < board.len() {
        board[from..].fill(0);
    }
}
