//! Laws of lines. Each function does nothing: its contract is the law.

ghost use Rattle.run_acts.specs.LineLaws.{ShownLinesAreOfObjects};

/// The line of what shows an object is the line of that object.
pub fn shown_lines_are_of_objects()
    ensures { ShownLinesAreOfObjects }
{}
