//! The places of a desk's stations, which need no lock.
ghost use Rattle.std.{specs.Prelude.{◌≡◌, ◌≤◌, length, IfOk, IfSome, is_some}, specs.List.list_any, specs.Str.bytes_eq};
ghost use Rattle.site_desk.specs.Roster.{AreNewPlaces, IsNamed};

use crate::parts::row_of;
use crate::plan::{SitePlan, StationPlan, order_of, period_of};
use ledger_model::{Limits, Name, Order, Periods};
use std::alloc::{AllocError, Global};

/// The place of a station: its name, its site's number, its row in the site's book, its limits, the
/// settlement periods, and the order of its readings.
#[derive(Drop)]
pub struct StationPlace {
    pub(crate) name: Name,
    pub(crate) site: u16,
    pub(crate) row: u16,
    pub(crate) limits: Limits,
    pub(crate) period: Periods,
    pub(crate) order: Order,
}

/// A station of a desk: its number, and its place.
#[derive(Clone, Copy)]
pub struct Located<'a> {
    /// The number.
    pub number: usize,
    /// The place.
    pub place: &'a StationPlace,
}

// The place of each station of a plan.
pub(crate) fn open_places(
    alloc: Global,
    sites: &[SitePlan],
    stations: &[StationPlan],
) -> Result<Vec<StationPlace>, AllocError>
    requires { length stations.now ≤ 64 }
    ensures { IfOk result (λ places. AreNewPlaces sites.now stations.now places.items) }
{
    let mut places = Vec::with_capacity(alloc, stations.len())?;
    for k in 0..stations.len() {
        let station = &stations[k];
        places.push(StationPlace {
            name: station.name.copied(),
            site: station.site,
            row: row_of(stations, station.site, k),
            limits: station.limits,
            period: period_of(sites, station.site),
            order: order_of(sites, station.site),
        })?;
    }
    Ok(places)
}

// The number of the station of this name, if there is one.
pub(crate) fn number_of(places: &[StationPlace], name: &Name) -> Option<usize>
    ensures known { is_some result ≡ list_any (λ p. bytes_eq name.now p.name) places.now }
    ensures named { IfSome result (IsNamed places.now name.now) }
{
    for k in 0..places.len() {
        if *name == places[k].name {
            return Some(k);
        }
    }
    None
}
