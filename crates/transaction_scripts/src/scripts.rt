//! Laws of scripts, and of one transaction of one station in them.
ghost use Rattle.std.{specs.Prelude.{◌≡◌, ℕ, List, All, Some, true}, specs.List.flat_map};
ghost use Rattle.board_report.specs.Texts.{board_text, total_text};
ghost use Rattle.ledger_model.{specs.Board.board_by, specs.Content.entries, specs.declared.order.Order.Order, specs.Periods.Periods, specs.World.Station};
ghost use Rattle.script_ledgers.specs.Script.{Script, energy_line, export_line, is_among, line_step, script_after, script_text, start, station_named};
ghost use Rattle.script_lines.{specs.LineMeaning.{asks_board, asks_energy, asks_export, asks_total, line_meaning}, specs.Lines.{Line, lines_of}, specs.Texts.ended_line};
ghost use Rattle.transaction_laws.specs.BoardSums.{sum_of_boards};
ghost use Rattle.transaction_scripts.{specs.AnyPlan.{DeclareAlike, DeclaresNothing, HasAlone}, specs.LoneBytes.{end_of_script, lone_script}, specs.LoneScripts.{IsAloneAfter, NoneRefused, line_texts, lines_about, lone_boards, lone_count, lone_lines, lone_texts}, specs.SiteBoards.{EachHasAlone, ScriptEach, board_together, figures_together, lone_scripts}};

/// A transaction depends on its own lines of a script alone. The script of just these lines, with the plan, the
/// moments, the questions for the transaction's lists and those for what a text asks for, writes for each line
/// what the whole script writes for it, byte for byte, except that a count of changes is that of the
/// transaction's own. It leaves the plan and the moment as they are, the station with what the whole script
/// leaves of the transaction, and all other stations without events. The board of a station is the sum of the
/// boards that these scripts leave, one for each of its transactions. Where no limit refuses a line, all lines
/// about the transaction are its own.
pub fn scripts_of_transactions()
    ensures texts { (name tx : List ℕ) (lines : List Line) → line_texts start (lone_lines name tx start lines) ≡ lone_texts name tx 0 start lines }
    ensures left { (name tx : List ℕ) (lines : List Line)
        → IsAloneAfter name tx (lone_count name tx 0 start lines) (script_after start lines) (script_after start (lone_lines name tx start lines)) }
    ensures boards { (order : Order) (period : Periods) (lines : List Line) (name : List ℕ) (station : Station) → station_named name (script_after start lines).world ≡ Some station
        → board_by order period (entries station.content) ≡ sum_of_boards period (lone_boards order period lines station) }
    ensures all { (name tx : List ℕ) (lines : List Line) → NoneRefused start lines → lone_lines name tx start lines ≡ lines_about name tx start lines }
{}

/// The script of a transaction alone is a part of the whole script's bytes: those of the lines that stay, with
/// their line feeds. Its lines are these, and its text is theirs.
pub fn bytes_of_transactions()
    ensures lines { (max_line_bytes : ℕ) (name tx bytes : List ℕ)
        → lines_of max_line_bytes (lone_script max_line_bytes name tx bytes) ≡ lone_lines name tx start (lines_of max_line_bytes bytes) }
    ensures text { (max_line_bytes : ℕ) (name tx bytes : List ℕ)
        → script_text start (lines_of max_line_bytes (lone_script max_line_bytes name tx bytes)) ≡ flat_map (λ text. text) (lone_texts name tx 0 start (lines_of max_line_bytes bytes)) }
{}

/// The transaction's lines may as well follow another plan, if that declares the station and its site alike: other
/// stations and sites change nothing. From two such plans on the lines get the same texts, and leave the station
/// with just the transaction.
pub fn plans_of_transactions()
    ensures begins { (name tx : List ℕ) (s other : Script) → DeclareAlike name s other → HasAlone name tx 0 s other }
    ensures texts { (name tx : List ℕ) (n : ℕ) (s lone : Script) (lines : List Line) → All (λ line. DeclaresNothing (line_meaning line)) lines
        → HasAlone name tx n s lone → line_texts lone (lone_lines name tx s lines) ≡ lone_texts name tx n s lines }
    ensures left { (name tx : List ℕ) (n : ℕ) (s lone : Script) (lines : List Line) → All (λ line. DeclaresNothing (line_meaning line)) lines
        → HasAlone name tx n s lone → HasAlone name tx (lone_count name tx n s lines) (script_after s lines) (script_after lone (lone_lines name tx s lines)) }
    ensures script { (name tx : List ℕ) (lines : List Line) (station : Station) → station_named name (script_after start lines).world ≡ Some station
        → HasAlone name tx (lone_count name tx 0 start lines) (script_after start lines) (script_after start (lone_lines name tx start lines)) }
{}

/// The text of a site's board is put together from what the scripts of its transactions alone show of the site:
/// each figure and each energy is the sum over all transactions of all its stations, and each transaction's line
/// is the one that its own script shows. So it is with any scripts that have one transaction each.
pub fn boards_of_transactions()
    ensures alone { (max_line_bytes : ℕ) (bytes : List ℕ) (line : Line) (site : List ℕ) → line_meaning line ≡ asks_board site
        → is_among site (end_of_script max_line_bytes bytes).sites ≡ true
        → (line_step (end_of_script max_line_bytes bytes) line).1 ≡ board_text (board_together (lone_scripts max_line_bytes bytes) site (end_of_script max_line_bytes bytes)) }
    ensures any { (each : ScriptEach) (lines : List Line) (line : Line) (site : List ℕ) → line_meaning line ≡ asks_board site → is_among site (script_after start lines).sites ≡ true
        → EachHasAlone each site (script_after start lines) → (line_step (script_after start lines) line).1 ≡ board_text (board_together each site (script_after start lines)) }
{}

/// The answers to `total`, `energy` and `export` of a station are the sums of what the scripts of its transactions
/// show of it, by any scripts that have one transaction each.
pub fn totals_of_transactions()
    ensures totals { (each : ScriptEach) (lines : List Line) (line : Line) (name : List ℕ) (station : Station) → station_named name (script_after start lines).world ≡ Some station
        → EachHasAlone each station.site (script_after start lines) → line_meaning line ≡ asks_total name
        → (line_step (script_after start lines) line).1 ≡ ended_line (total_text (figures_together each station)) }
    ensures energies { (each : ScriptEach) (lines : List Line) (line : Line) (name : List ℕ) (station : Station) → station_named name (script_after start lines).world ≡ Some station
        → EachHasAlone each station.site (script_after start lines) → line_meaning line ≡ asks_energy name
        → (line_step (script_after start lines) line).1 ≡ energy_line (record { up = (figures_together each station).up; down = (figures_together each station).down }) }
    ensures exports { (each : ScriptEach) (lines : List Line) (line : Line) (name : List ℕ) (station : Station) → station_named name (script_after start lines).world ≡ Some station
        → EachHasAlone each station.site (script_after start lines) → line_meaning line ≡ asks_export name
        → (line_step (script_after start lines) line).1 ≡ export_line (record { up = (figures_together each station).export_up; down = (figures_together each station).export_down }) }
{}
