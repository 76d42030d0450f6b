//! Laws of journals, each proved as the contract of a function that does nothing.
ghost use Rattle.journal_laws.specs.Restores.{CutJournalsRestore, HeadsAreKept};

/// Take a script in whole lines that loses no line and has no line `listen`, behind it the text of accepted entries,
/// cut at any byte, and behind that the mark of a restore or the next run's first line. The longer script loses no line
/// and has no line `listen`; with the mark of a restore its last line ends with `#`. So a restore that reads it reports
/// neither `LeftOut` nor `NotMarked`.
pub fn cut_journals_restore()
    ensures { CutJournalsRestore }
{}

/// The head with which a journal begins loses none of its lines, and none is `listen`.
pub fn heads_are_kept()
    ensures { HeadsAreKept }
{}
