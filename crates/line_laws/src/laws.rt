// What the lines of a script say.
ghost use Rattle.line_laws.specs.Lines.{LinesAreSaid, LinesHaveWords};

/// Law: a line says exactly this. It has one list of words, which stand between spaces. A line
/// without words is passed over, and so is one whose first word begins with `#`. Any other is read
/// where all its bytes are from 0x20 to 0x7E and its words are a command with what it wants, no
/// more and no less: `load` and `replace` an hour and a name, `withdraw` and `verdicts` an hour,
/// `blank` and `unblank` two stamps, `audit` nothing, `measures` nothing or an hour, `points` a
/// phase, `offsets` a name. Where it isn't read it's a bad line.
pub fn lines_are_said()
    ensures words { LinesHaveWords }
    ensures said { LinesAreSaid }
{}
