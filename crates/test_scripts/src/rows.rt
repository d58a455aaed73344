// Worked journals, as facts that hold by computing: which entries fit the lines of a script.
ghost use Rattle.test_scripts.specs.Rows.{LinesFit, RefusedLinesFit, StoppedLineFits, NoneFits};

/// Six lines of a writer, beside another one, each of which did all that it asks.
pub fn lines_fit()
    ensures { LinesFit }
{}

/// A line of a range that is mapped already, one of a hole, and one of a name that isn't bound.
pub fn refused_lines_fit()
    ensures { RefusedLinesFit }
{}

/// A writer that stops in the middle of a line.
pub fn stopped_line_fits()
    ensures { StoppedLineFits }
{}

/// What doesn't fit: a line that is done twice, is half done and says it is whole, is done at
/// another place or in another file, answers what stops a writer, or leaves an entry behind it.
pub fn none_fits()
    ensures { NoneFits }
{}
