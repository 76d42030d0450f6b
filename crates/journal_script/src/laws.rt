//! Laws of a journal's text. Each function's contract is the law; the functions do nothing.
ghost use Rattle.journal_script.{specs.Cuts.CutsAreScripts, specs.Journals.{BoardsAreThoseOfCells, JournalsAreScripts}, specs.OneScript.{CommentsChangeNothing, RestoredCutsAreScripts, RestoredFilesAreScripts}, specs.Speaking.EventsAskAtAnyMoment};

/// A script with a journal's text behind it ends with the contents to which the journal's entries lead, each
/// station's own.
pub fn journals()
    ensures { JournalsAreScripts }
{}

/// Take a script, behind it a journal's text cut at any byte, and behind that the mark of a restore or of the next run.
/// It ends with the contents to which the journal's whole lines lead: none of these is lost, and the part of a line
/// does nothing.
pub fn cuts()
    ensures { CutsAreScripts }
{}

/// A journal that was restored and goes on in its own file is one script. What the server read has a `#` at its end,
/// and the file has none; a replay of either ends in the same state, whatever is written behind. The same holds for
/// each comment between whole lines. If the journal was cut at any byte, the next run begins with the same contents
/// behind either.
pub fn restored_files()
    ensures comments { CommentsChangeNothing }
    ensures whole { RestoredFilesAreScripts }
    ensures cut { RestoredCutsAreScripts }
{}

/// If a script's stations have the contents of a desk's cells, the script answers `board` with that
/// desk's boards.
pub fn boards()
    ensures { BoardsAreThoseOfCells }
{}

/// A text that is an event at one moment asks for its delivery at every moment.
pub fn events()
    ensures { EventsAskAtAnyMoment }
{}
