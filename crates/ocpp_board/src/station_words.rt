//! The words `SITE/STATION` of a server, and the plan that they make.
ghost use Rattle.std.specs.Prelude.{◌≡◌, None, map, option_map};
ghost use Rattle.ocpp_board.specs.StationWords.{declared_by, first_bad, station_word, AnswersWords};

use ledger_model::{Limits, Name, Order, Periods};
use site_desk::Plan;

/// Why words make no plan, with the word at fault. The first fault that applies, in this order, is
/// reported.
#[derive(Clone, Copy)]
pub enum WordFault<'a> {
    /// The words of the limits are not four decimals, each in its range.
    BadLimits,
    /// This word is not two names with one `/` between them.
    BadStation(&'a str),
    /// With this word there are more sites or stations than a plan may have.
    PlanLimit(&'a str),
}

/// The plan of the stations that these words name, in their order, under these limits. A site begins at its first
/// mention, and has so many viewers, these settlement periods and this order of readings.
pub fn plan_of<'a>(
    words: &[&'a str],
    viewers: u16,
    period: Periods,
    order: Order,
    limits: Limits,
) -> Result<Plan, WordFault<'a>>
    ensures { AnswersWords result viewers period order limits (map (λ w. w.now) words.now) }
{
    if let Some(word) = first_bad(words) {
        return Err(WordFault::BadStation(word));
    }
    let mut plan = Plan::new();
    match declare_words(&mut plan, words, viewers, period, order, limits) {
        Some(word) => Err(WordFault::PlanLimit(word)),
        None => Ok(plan),
    }
}

// The first of the words that names no station.
fn first_bad<'a>(words: &[&'a str]) -> Option<&'a str>
    ensures { option_map (λ w. w.now) result ≡ first_bad (map (λ w. w.now) words.now) }
{
    let [word, rest @ ..] = words else {
        return None;
    };
    match station_word(word) {
        None => Some(word),
        Some(_) => first_bad(rest),
    }
}

// Declares the stations of words that all name one, up to the first that is one too many, and returns
// that word.
fn declare_words<'a>(
    plan: &mut Plan,
    words: &[&'a str],
    viewers: u16,
    period: Periods,
    order: Order,
    limits: Limits,
) -> Option<&'a str>
    requires good { first_bad (map (λ w. w.now) words.now) ≡ None }
    ensures { declared_by viewers period order limits (map (λ w. w.now) words.now) plan.old.sites.items plan.old.stations.items
        ≡ (option_map (λ w. w.now) result, (plan.new.sites.items, plan.new.stations.items)) }
{
    let [word, rest @ ..] = words else {
        return None;
    };
    let Some((site, station)) = station_word(word) else {
        return Some(word);
    };
    if plan.is_past(&site, &limits) {
        return Some(word);
    }
    plan.declare(site, viewers, period, order, station, limits);
    declare_words(plan, rest, viewers, period, order, limits)
}

/// The site and the station of a word `SITE/STATION`; `None` if the word is not of that form.
pub fn station_word(word: &str) -> Option<(Name, Name)>
    ensures { result ≡ station_word word.now }
{
    let (site, station) = word.split_once('/')?;
    Some((Name::new(site)?, Name::new(station)?))
}
