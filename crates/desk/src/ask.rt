//! What can be asked of a book, in the words of a feed.

/// A command as it reaches the book of one kind of piece.
#[derive(Clone, Copy)]
pub enum Ask<P> {
    /// a further radius
    Radius(u32),
    /// the end of setting up
    Open,
    /// a piece and its day
    Post { piece: P, day: u32 },
    /// another day
    Turn(u32),
    /// a pick
    Pick,
    /// what is out of place at any time: settings once more, or a piece of another kind
    Stray,
}
