//! What a turn of the search leads to.
/// What a turn of the search leads to.
#[derive(Clone, Copy)]
pub enum Lead {
    /// The next place, and the least object that an answer may have there.
    At(usize, u32),
    /// The list fits.
    Found,
    /// No list fits.
    Nothing,
}
