// What moving bytes into a line came to.
#[derive(Clone, Copy)]
pub enum Piece {
    // The line is whole, and its line feed is gone.
    Line,
    // The line has one byte too many.
    TooLong,
    // The line may go on.
    More,
}
