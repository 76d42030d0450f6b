//! Laws of a script's text. Each function's contract is the law; the functions do nothing.
ghost use Rattle.script_replay.{specs.DeliverLaws.{AsksIsTheMeaning, DeliverIsMsg, DeliversMakeTheSameState}, specs.LiveLaws.{LiveEventsMakeBoards, LiveEventsMakeEnergies, LiveEventsMakeTotals}, specs.Laws.{AnEmptyScriptWritesNothing, FaultsChangeNothing, StationsAreReached, EnergyIsFromScratch, ExportIsFromScratch, ListedPairsMakeEnergies, ListedPartsMakePeriods, ListsAreFromScratch, TotalsAreFromScratch, BoardsAreFromScratch, SitesAreSums, WorldsAreRuns, UnacceptedChangesNothing, OrderChangesNoBoard}};

/// The text of an empty script is empty.
pub fn empty_script()
    ensures { AnEmptyScriptWritesNothing }
{}

/// A line with a fault as its text changes no plan, content or moment.
pub fn faults()
    ensures { FaultsChangeNothing }
{}

/// After any lines, as many accepted commands as a station's content counts lead from the empty content to
/// it.
pub fn stations()
    ensures { StationsAreReached }
{}

/// After any lines, the answers to `energy` and to `export` are computed from all accepted events that are not
/// voided.
pub fn energies()
    ensures imported { EnergyIsFromScratch }
    ensures exported { ExportIsFromScratch }
{}

/// After any lines, the answer to `total` is the figures of the station, computed from all its events.
pub fn totals()
    ensures { TotalsAreFromScratch }
{}

/// After any lines, the answer to `events` or `readings` is the list of the transaction, computed from all events of its
/// station. The energies of a list of readings are those of the pairs that it shows, each reading with the one behind
/// it. The energy of a settlement period of a station, in each direction, is that of the parts of this period in the
/// lists of all its transactions: each part is in one of them.
pub fn lists()
    ensures answers { ListsAreFromScratch }
    ensures energies { ListedPairsMakeEnergies }
    ensures periods { ListedPartsMakePeriods }
{}

/// After any lines, the answer to `board` is the board of the site's stations, computed from all their events.
pub fn boards()
    ensures { BoardsAreFromScratch }
{}

/// The figures of a site, and the energy of each period that it shows, are the sums over its stations.
pub fn sites()
    ensures { SitesAreSums }
{}

/// After any lines, the world is that after a run of just the commands that the lines ask for, beginning with
/// the plan's stations without events.
pub fn runs()
    ensures { WorldsAreRuns }
{}

/// A repeat or a refusal changes no station, whatever lines came before, and so no board.
pub fn unaccepted()
    ensures { UnacceptedChangesNothing }
{}

/// `deliver` leaves what `msg` leaves, and what it writes is what becomes of the event and then the text of `msg`. A
/// script with `deliver` in place of `msg`, in any of its lines, ends in the same state, so each board and each further
/// answer is the same.
pub fn delivers()
    ensures line { DeliverIsMsg }
    ensures script { DeliversMakeTheSameState }
{}

/// `asks` changes nothing, and its answer is what the text means at the script's moment.
pub fn asks()
    ensures { AsksIsTheMeaning }
{}

/// Two scripts have the same boards if they have the same declarations, no void, restoration or erasure,
/// and, station by station, the same accepted deliveries in another order.
pub fn orders()
    ensures { OrderChangesNoBoard }
{}

/// Take two scripts after which the stations of a site have the same names and the same live events, and the
/// site has the same order of readings and the same length of settlement periods. They show its board alike:
/// all is equal except for the number of voided events. The energies of each of its stations, imported and
/// exported, are equal, and so are the stations' totals except for that number.
pub fn live_events()
    ensures boards { LiveEventsMakeBoards }
    ensures energies { LiveEventsMakeEnergies }
    ensures totals { LiveEventsMakeTotals }
{}
