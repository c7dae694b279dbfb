//! Texts that are worked out by hand. The calls do nothing.
ghost use Rattle.px_printer.specs.Worked.{WorkedBlock, WorkedTexts};

/// The block of a saved table, and some of its lines, are as worked out.
pub fn worked_block()
    ensures { WorkedBlock }
{}

/// These texts are as worked out.
pub fn worked_texts()
    ensures { WorkedTexts }
{}
