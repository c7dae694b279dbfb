//! Words that are taken and words that aren't, worked out by hand. The call does nothing.
ghost use Rattle.px_words.specs.Worked.{WorkedWords};

/// What these words order is as worked out.
pub fn worked_words()
    ensures { WorkedWords }
{}
