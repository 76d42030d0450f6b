//! The help on a script's lines.

/// The help on a script's lines, as one text with what is in front of it and behind it.
#[macro_export]
macro_rules! script_help {
    ($front:literal, $back:literal) => {
        concat!(
            $front,
            "\
A script has one line for each step, and each answer is one line, a board or a list:
  limits <transactions> <events> <readings> <changes>
                             holds for the stations that follow; writes nothing
  station <site> <station>   declares a station; writes nothing
  period <site> <seconds>    the settlement period of the site's boards: 300, 900, 1800 or
                             3600 seconds, 900 if there is no such line; writes nothing
  order <site> <word>        how the site takes a transaction's readings: `sequence`, by the
                             numbers of their events, or `moment`, by their own moments;
                             `sequence` if there is no such line; writes nothing
  settle <site> <word>       in which period the difference of two readings counts: `later`, in
                             that of the later reading, `closing`, in the one that it closes
                             (10:15:00 closes 10:00 to 10:15), or `even`, in each period between
                             them by its share of the time, where they lie at most a day apart;
                             `later` if there is no such line; writes nothing
  now <time>                 sets the moment, as 2026-03-01T10:00:00Z; writes nothing
  msg <station> <text>       an OCPP-J message of the station; writes the reply, or `silent`
  deliver <station> <text>   the same; writes `accepted <n> <reply>`, `repeat <reply>` or
                             `refused <name> <reply>`; for a text without an event
                             `reply <reply>` or `silent`
  void, restore or erase, with <station> <transaction id> <seqNo>
                             an operator's command; writes `accepted <n>` or `refused <name>`
  energy <station>           writes `energy up=<n> down=<n>`, what was imported, in
                             milliwatt-hours
  export <station>           writes `export up=<n> down=<n>`, what was exported
  total <station>            writes the station's figures
  board <site>               writes the board of the site, from its name to `end`
  events <station> <transaction id>
                             writes the events of a transaction, live and voided, up to `end`
  readings <station> <transaction id>
                             writes the readings that its energy is made of, what each two in a
                             row show and the periods in which that counts, up to `end`
  asks <text>                writes what a message asks for: `event <transaction id> <seqNo>`,
                             `reply <reply>` or `silent`; changes nothing
  mark <word>                writes itself
Empty lines and lines that begin with # write nothing. A line with a fault writes
`fault <name>` and changes no plan, content or moment: LineTooLong, BadLine,
DeclaredLate, PlanLimit, StationTwice, UnknownStation, UnknownSite or UnknownTransaction.
",
            $back
        )
    };
}
