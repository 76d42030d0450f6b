//! How a journal begins: the first line of a run, and the declarations of a plan.
ghost use Rattle.std.specs.Prelude.{◌≡◌, ◌≤◌, ◌<◌, ◌+◌, ◌++◌, [], ◌∷◌, true, None, IfOk, OnOk, flat_map, length};
ghost use Rattle.journal_script.{specs.Cuts.run_begins, specs.Head.{Adds, IsHeadOf, are_in_order, limits_meaning, order_meanings, settle_meanings, site_meanings, station_meanings}};
ghost use Rattle.site_desk.specs.Plan.{plan_fault};

use crate::left_out::RUN_LINE;
use itoa::Buffer;
use ledger_model::{Limits, Order, Settle};
use site_desk::{Plan, SitePlan, StationPlan};
use std::alloc::{AllocError, Global};

// The end of a journal's head. A script to restore has the same mark before its line `listen`.
const MARK: &[u8] = b"#\n";

/// How a run begins in a journal: its first line.
pub fn run_head(alloc: Global) -> Result<Vec<u8>, AllocError>
    ensures { IfOk result (λ head. head.items ≡ run_begins) }
{
    let mut head = Vec::new(alloc);
    head.extend_from_slice(RUN_LINE)?;
    head.push(b'\n')?;
    Ok(head)
}

/// Returns whether these stations mention all sites from the number `seen` on, each for the first time in the order of
/// the numbers. A script can declare sites in no other order. The sites below that number were mentioned before.
///
/// Condition: `seen` and the number of stations are at most 64 together.
pub fn are_in_order(stations: &[StationPlan], seen: u16, sites: u16) -> bool
    requires { seen + length stations.now ≤ 64 }
    ensures { result ≡ are_in_order seen sites stations.now }
{
    let [station, rest @ ..] = stations else {
        return seen == sites;
    };
    if station.site < seen {
        are_in_order(rest, seen, sites)
    } else {
        station.site == seen && are_in_order(rest, seen + 1, sites)
    }
}

/// How a journal begins: the first line of its run, the declarations of the plan, and the mark.
///
/// Conditions: the plan has no fault ([`Plan::fault`](site_desk::Plan::fault)), and its stations mention its sites in
/// their order ([`are_in_order`]).
pub fn journal_head(alloc: Global, plan: &Plan) -> Result<Vec<u8>, AllocError>
    requires faultless { plan_fault plan.now.sites.items plan.now.stations.items ≡ None }
    requires in_order { are_in_order 0 (length plan.now.sites.items) plan.now.stations.items ≡ true }
    ensures { IfOk result (λ head. IsHeadOf plan.now.sites.items plan.now.stations.items head.items) }
{
    let sites = plan.sites.as_slice();
    let mut head = run_head(alloc)?;
    for station in plan.stations.as_slice() {
        put_station(&mut head, sites, station)?;
    }
    for site in sites {
        put_site(&mut head, site)?;
    }
    head.extend_from_slice(MARK)?;
    Ok(head)
}

// The lines of a station's limits, and of its site and name.
fn put_station(
    head: &mut Vec<u8>,
    sites: &[SitePlan],
    station: &StationPlan,
) -> Result<(), AllocError>
    requires { station.now.site < length sites.now }
    ensures { OnOk result (Adds head.old.items head.new.items (station_meanings sites.now station.now)) }
{
    put_limits(head, &station.limits)?;
    let site = &sites[station.site as usize];
    put_line(head, "station", &[site.name.text(), station.name.text()])
}

// The line of a station's limits.
fn put_limits(head: &mut Vec<u8>, limits: &Limits) -> Result<(), AllocError>
    ensures { OnOk result (Adds head.old.items head.new.items (limits_meaning limits.now ∷ [])) }
{
    let (mut transactions, mut events) = (Buffer::new(), Buffer::new());
    let (mut readings, mut changes) = (Buffer::new(), Buffer::new());
    let words = [
        transactions.format(limits.transactions()),
        events.format(limits.events()),
        readings.format(limits.readings()),
        changes.format(limits.changes()),
    ];
    put_line(head, "limits", &words)
}

// The lines of the length of a site's settlement periods, and of its order and its rule of settling where they are not
// those that a script takes by default.
fn put_site(head: &mut Vec<u8>, site: &SitePlan) -> Result<(), AllocError>
    ensures { OnOk result (Adds head.old.items head.new.items (site_meanings site.now)) }
{
    let mut seconds = Buffer::new();
    let seconds = seconds.format(site.period.length().seconds());
    put_line(head, "period", &[site.name.text(), seconds])?;
    put_order(head, site)?;
    put_settle(head, site)
}

// The line of a site's order of readings.
fn put_order(head: &mut Vec<u8>, site: &SitePlan) -> Result<(), AllocError>
    ensures { OnOk result (Adds head.old.items head.new.items (order_meanings site.now.name site.now.order)) }
{
    match site.order {
        Order::Sequence => Ok(()),
        Order::Moment => put_line(head, "order", &[site.name.text(), "moment"]),
    }
}

// The line of a site's rule of settling.
fn put_settle(head: &mut Vec<u8>, site: &SitePlan) -> Result<(), AllocError>
    ensures { OnOk result (Adds head.old.items head.new.items (settle_meanings site.now.name site.now.period.rule)) }
{
    match site.period.rule() {
        Settle::Later => Ok(()),
        Settle::Closing => put_line(head, "settle", &[site.name.text(), "closing"]),
        Settle::Even => put_line(head, "settle", &[site.name.text(), "even"]),
    }
}

// A line of these words, separated by spaces.
fn put_line(head: &mut Vec<u8>, first: &str, words: &[&str]) -> Result<(), AllocError>
    ensures { OnOk result (head.new.items ≡ head.old.items ++ first.now ++ flat_map (λ w. 32 ∷ w.now) words.now ++ 10 ∷ []) }
{
    head.extend_from_slice(first.as_bytes())?;
    for word in words {
        head.push(b' ')?;
        head.extend_from_slice(word.as_bytes())?;
    }
    head.push(b'\n')?;
    Ok(())
}
