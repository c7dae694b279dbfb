//! The law about how long texts are. The call does nothing.
ghost use Rattle.px_lengths.specs.Bounded.{TextsAreBounded};

/// No text of lawful replies to the first commands of a script is longer than the script's longest transcript; and the lines of a demo and
/// of a certificate are no longer than their bounds.
pub fn texts_are_bounded()
    ensures { TextsAreBounded }
{}
