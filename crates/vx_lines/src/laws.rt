//! Laws of a text's lines. Each function does nothing: its clause is the law.

ghost use Rattle.vx_lines.specs.Cut.{CutIsLines, LinesAreCut};

/// The lines of a text are its front, cut at each LF, and what is left ends it as its ending says.
pub fn lines_are_cut()
    ensures { LinesAreCut }
{}

/// A text that is so cut has no other lines and no other ending.
pub fn cut_is_lines()
    ensures { CutIsLines }
{}
