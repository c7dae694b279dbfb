//! What a pursuit is to come to.
use px_printer::TurnEnd;
use px_pursue::{PursueEnd, Pursued, PursuedTurn};

/// Returns whether the turns are those of these kernels, with these ends.
pub fn are_told(turns: &[PursuedTurn], told: &[(u32, TurnEnd)]) -> bool {
    turns.len() == told.len()
        && turns
            .iter()
            .zip(told)
            .all(|(turn, told)| turn.kernel == told.0 && turn.end == told.1)
}

/// Returns whether a pursuit made so many searches, had these turns, and ended at the goal.
pub fn reaches(made: &Pursued, searches: u32, told: &[(u32, TurnEnd)]) -> bool {
    made.searches == searches
        && are_told(made.turns.as_slice(), told)
        && matches!(made.end, PursueEnd::Goal)
}
