ghost use Rattle.std.{specs.Prelude.{◌≡◌, ◌≤◌, ◌<◌, ◌*◌, IfSome, ◌++◌, ◌∷◌, [], false, None, Some, map, sum_by, length, nat_le, nat_lt}, specs.List.{list_all, list_any, position}, specs.Option.is_some, specs.Str.bytes_eq};
ghost use Rattle.ledger_model.specs.Ranges.{most_sites};
ghost use Rattle.site_desk.specs.Plan.{blank_name, first_twice, has_twice, is_past, is_within_limits, most_viewers, order_at, period_at, plan_fault, site_number, sites_by, sites_in, sites_settling, sites_with, stations_with};

use crate::fault::DeskFault;
use arrayvec::ArrayVec;
use ledger_model::{
    Limits, MAX_PLAN_READINGS, MAX_SITES, MAX_STATIONS, Name, Order, Period, Periods, Settle,
};

/// How many viewers a site may have.
pub const MAX_VIEWERS: u16 = 64;

/// A site: its name, how many viewers it has, at most 64, the settlement periods of its boards with the rule by
/// which differences count in them, and the order in which it takes the readings of a transaction.
#[derive(Drop)]
pub struct SitePlan {
    pub name: Name,
    pub viewers: u16,
    pub period: Periods,
    pub order: Order,
}

/// A station: the number of its site in the plan, its name, and its limits.
#[derive(Drop)]
pub struct StationPlan {
    pub site: u16,
    pub name: Name,
    pub limits: Limits,
}

/// The sites and stations of one desk. Both are numbered from 0 in this order, and names are compared
/// exactly; a station's name is used only once over all sites.
#[derive(Drop)]
pub struct Plan {
    pub sites: ArrayVec<SitePlan, MAX_SITES>,
    pub stations: ArrayVec<StationPlan, MAX_STATIONS>,
}

impl Plan {
    /// A plan of no site and no station.
    pub fn new() -> Plan
        ensures sites { result.sites.items ≡ [] }
        ensures stations { result.stations.items ≡ [] }
    {
        Plan {
            sites: ArrayVec::new(),
            stations: ArrayVec::new(),
        }
    }

    /// The number of the site of this name, if there is one.
    pub fn site(&self, name: &Name) -> Option<usize>
        ensures is { result ≡ position (λ s. bytes_eq name.now s.name) self.now.sites.items }
        ensures there { IfSome result (λ n. n < most_sites) }
    {
        self.sites
            .as_slice()
            .iter()
            .position(|site| *name == site.name)
    }

    /// The number of the station of this name, if there is one.
    pub fn station(&self, name: &Name) -> Option<usize>
        ensures { result ≡ position (λ s. bytes_eq name.now s.name) self.now.stations.items }
    {
        self.stations
            .as_slice()
            .iter()
            .position(|station| *name == station.name)
    }

    /// Returns whether with one more station, of this site and with these limits, a plan would have
    /// more than it may: of stations, of readings, or of sites.
    pub fn is_past(&self, site: &Name, limits: &Limits) -> bool
        ensures { result ≡ is_past (position (λ s. bytes_eq site.now s.name) self.now.sites.items) self.now.sites.items self.now.stations.items limits.now }
    {
        let stations = self.stations.as_slice();
        let readings = readings(stations) + u64::from(limits.readings());
        let is_new = self.site(site).is_none();
        stations.len() >= MAX_STATIONS
            || readings > MAX_PLAN_READINGS
            || (is_new && self.sites.len() >= MAX_SITES)
    }

    /// Adds a station of this name with these limits, behind the others. Its site begins at its first
    /// mention, with so many viewers, these settlement periods and this order of readings. A name that is in the
    /// plan already is left to [`Plan::fault`].
    ///
    /// Condition: that is not more than a plan may have ([`Plan::is_past`] tests it).
    pub fn declare(
        &mut self,
        site: Name,
        viewers: u16,
        period: Periods,
        order: Order,
        name: Name,
        limits: Limits,
    )
        requires room { is_past (position (λ s. bytes_eq site s.name) self.old.sites.items) self.old.sites.items self.old.stations.items limits ≡ false }
        ensures sites { self.new.sites.items ≡ sites_with (position (λ s. bytes_eq site s.name) self.old.sites.items) site viewers period order self.old.sites.items }
        ensures stations { self.new.stations.items ≡ stations_with (position (λ s. bytes_eq site s.name) self.old.sites.items) self.old.sites.items name limits self.old.stations.items }
    {
        let site = self.mention(site, viewers, period, order);
        self.stations.push(StationPlan { site, name, limits });
    }

    // The number of the site of this name, which begins at its first mention.
    fn mention(&mut self, name: Name, viewers: u16, period: Periods, order: Order) -> u16
        requires room { position (λ s. bytes_eq name s.name) self.old.sites.items ≡ None → length self.old.sites.items < most_sites }
        ensures sites { self.new.sites.items ≡ sites_with (position (λ s. bytes_eq name s.name) self.old.sites.items) name viewers period order self.old.sites.items }
        ensures stations { self.new.stations.items ≡ self.old.stations.items }
        ensures number { result ≡ site_number (position (λ s. bytes_eq name s.name) self.old.sites.items) self.old.sites.items }
    {
        match self.site(&name) {
            Some(number) => number as u16,
            None => {
                let number = self.sites.len() as u16;
                self.sites.push(SitePlan {
                    name,
                    viewers,
                    period,
                    order,
                });
                number
            }
        }
    }

    /// The settlement periods of the site of this number.
    ///
    /// Condition: the plan has the site ([`Plan::site`] tests it).
    pub fn period(&self, site: usize) -> Periods
        requires { site < length self.now.sites.items }
        ensures { result ≡ period_at self.now.sites.items site }
    {
        self.sites.as_slice()[site].period
    }

    /// Gives the settlement periods of the site of this number another length.
    ///
    /// Condition: the plan has the site ([`Plan::site`] tests it).
    pub fn set_period(&mut self, site: usize, period: Period)
        requires { site < length self.old.sites.items }
        ensures sites { self.new.sites.items ≡ sites_by site period self.old.sites.items }
        ensures stations { self.new.stations.items ≡ self.old.stations.items }
    {
        let lasting = self.period(site).with_length(period);
        self.sites.as_mut_slice()[site].period = lasting;
    }

    /// Gives the site of this number another rule by which differences count in its settlement periods.
    ///
    /// Condition: the plan has the site ([`Plan::site`] finds it).
    pub fn set_settle(&mut self, site: usize, settle: Settle)
        requires { site < length self.old.sites.items }
        ensures sites { self.new.sites.items ≡ sites_settling site settle self.old.sites.items }
        ensures stations { self.new.stations.items ≡ self.old.stations.items }
    {
        let settling = self.period(site).with_rule(settle);
        self.sites.as_mut_slice()[site].period = settling;
    }

    /// The order in which the site of this number takes the readings of a transaction.
    ///
    /// Condition: the plan has the site ([`Plan::site`] tests it).
    pub fn order(&self, site: usize) -> Order
        requires { site < length self.now.sites.items }
        ensures { result ≡ order_at self.now.sites.items site }
    {
        self.sites.as_slice()[site].order
    }

    /// Gives the site of this number another order of readings.
    ///
    /// Condition: the plan has the site ([`Plan::site`] tests it).
    pub fn set_order(&mut self, site: usize, order: Order)
        requires { site < length self.old.sites.items }
        ensures sites { self.new.sites.items ≡ sites_in site order self.old.sites.items }
        ensures stations { self.new.stations.items ≡ self.old.stations.items }
    {
        self.sites.as_mut_slice()[site].order = order;
    }

    /// The name of the plan's first station that has the same name as a later one.
    pub fn station_twice(&self) -> Option<&Name>
        ensures stands { is_some result ≡ has_twice (map (λ s. s.name) self.now.stations.items) }
        ensures first { IfSome result (λ name. first_twice (map (λ s. s.name) self.now.stations.items) ≡ Some name.now) }
    {
        first_twice(self.stations.as_slice())
    }

    /// What is wrong with the plan, if anything is: it is past a limit, or two stations have the same
    /// name.
    pub fn fault(&self) -> Option<DeskFault>
        ensures { result ≡ plan_fault self.now.sites.items self.now.stations.items }
    {
        let sites = self.sites.as_slice();
        let stations = self.stations.as_slice();
        if !is_within_limits(sites, stations) {
            Some(DeskFault::PlanLimit)
        } else if self.station_twice().is_some() {
            Some(DeskFault::StationTwice)
        } else {
            None
        }
    }
}

impl Default for SitePlan {
    ghost use Rattle.std.specs.Prelude.{◌≡◌};
    ghost use Rattle.ledger_model.{specs.Settling.default_periods, specs.declared.order.Order.TheVariants.Sequence};
    ghost use Rattle.site_desk.specs.Plan.{blank_name};

    ghost is_default = { λ s. s ≡ record { name = blank_name; viewers = 0; period = default_periods; order = Sequence } };

    /// A site named `-`, without viewers, by the default settlement periods, its readings by sequence.
    fn default() -> Self {
        SitePlan {
            name: blank(),
            viewers: 0,
            period: Periods::default(),
            order: Order::default(),
        }
    }
}

impl Default for StationPlan {
    ghost use Rattle.std.specs.Prelude.{◌≡◌};
    ghost use Rattle.ledger_model.specs.Limits.{default_limits};
    ghost use Rattle.site_desk.specs.Plan.{blank_name};

    ghost is_default = { λ s. s ≡ record { site = 0; name = blank_name; limits = default_limits } };

    /// A station named `-` of the first site, with the default limits.
    fn default() -> Self {
        StationPlan {
            site: 0,
            name: blank(),
            limits: Limits::default(),
        }
    }
}

// The settlement periods of the site of this number, and the default ones where there is no such site.
pub(crate) fn period_of(sites: &[SitePlan], site: u16) -> Periods
    ensures { result ≡ period_at sites.now site }
{
    match sites.get(usize::from(site)) {
        Some(site) => site.period,
        None => Periods::default(),
    }
}

// The order of readings of the site of this number, or the default one if there is no such site.
pub(crate) fn order_of(sites: &[SitePlan], site: u16) -> Order
    ensures { result ≡ order_at sites.now site }
{
    match sites.get(usize::from(site)) {
        Some(site) => site.order,
        None => Order::default(),
    }
}

// The name `-`.
fn blank() -> Name
    ensures { result ≡ blank_name }
{
    Name::new("-").unwrap()
}

// Returns whether the plan is within all limits except those that its lists have by their types.
fn is_within_limits(sites: &[SitePlan], stations: &[StationPlan]) -> bool
    requires { length stations.now ≤ 64 }
    ensures { result ≡ is_within_limits sites.now stations.now }
{
    readings(stations) <= MAX_PLAN_READINGS
        && are_viewers_few(sites)
        && are_sites_known(stations, sites.len())
        && !are_sites_twice(sites)
}

// Returns whether no site has too many viewers.
fn are_viewers_few(sites: &[SitePlan]) -> bool
    ensures { result ≡ list_all (λ s. nat_le s.viewers most_viewers) sites.now }
{
    sites.iter().all(|site| site.viewers <= MAX_VIEWERS)
}

// Returns whether each station is at one of these sites.
fn are_sites_known(stations: &[StationPlan], sites: usize) -> bool
    ensures { result ≡ list_all (λ s. nat_lt s.site sites) stations.now }
{
    stations
        .iter()
        .all(|station| (station.site as usize) < sites)
}

// How many readings the stations may keep in all.
fn readings(stations: &[StationPlan]) -> u64
    requires { length stations.now ≤ 64 }
    ensures sum { result ≡ sum_by (λ s. s.limits.readings) stations.now }
    ensures few { result ≤ 64 * 65_536 }
{
    let mut sum = 0;
    for station in stations {
        sum += station.limits.readings() as u64;
    }
    sum
}

// Returns whether one of these sites has this name.
fn has_site(sites: &[SitePlan], name: &Name) -> bool
    ensures { result ≡ list_any (λ s. bytes_eq name.now s.name) sites.now }
{
    sites.iter().any(|site| *name == site.name)
}

// Returns whether one of these stations has this name.
fn has_station(stations: &[StationPlan], name: &Name) -> bool
    ensures { result ≡ list_any (λ s. bytes_eq name.now s.name) stations.now }
{
    stations.iter().any(|station| *name == station.name)
}

// Returns whether two sites have the same name.
fn are_sites_twice(sites: &[SitePlan]) -> bool
    ensures { result ≡ has_twice (map (λ s. s.name) sites.now) }
{
    for k in 0..sites.len() {
        if has_site(&sites[k + 1..], &sites[k].name) {
            return true;
        }
    }
    false
}

// The name of the first station that has the same name as a later one.
fn first_twice(stations: &[StationPlan]) -> Option<&Name>
    ensures stands { is_some result ≡ has_twice (map (λ s. s.name) stations.now) }
    ensures first { IfSome result (λ name. first_twice (map (λ s. s.name) stations.now) ≡ Some name.now) }
{
    for k in 0..stations.len() {
        if has_station(&stations[k + 1..], &stations[k].name) {
            return Some(&stations[k].name);
        }
    }
    None
}
