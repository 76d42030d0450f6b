ghost use Rattle.std.{specs.Prelude.{◌≡◌, ◌<◌, false, None, Some, [], length, IfOk, IfSome, IsTrue, OnOk}, specs.Option.is_some, specs.List.position, specs.Str.bytes_eq};
ghost use Rattle.site_desk.specs.Plan.{sites_by, sites_in, sites_settling};
ghost use Rattle.script_lines.specs.ScriptLines.{meaning_of};
ghost use Rattle.script_ledgers.{specs.Drafts.{planned, IsPlan}, specs.Script.{start, declared_to, is_past_plan, is_period, joined_by, limited_to, opening, order_to, period_to, settle_to, step_by}};

use crate::asked::put_asked;
use crate::listed::put_mark;
use ledger_model::{Limits, Moment, Name, Order, Period, Periods, Settle};
use script_lines::{LineFault, ScriptLine, put_fault};
use site_desk::Plan;
use std::alloc::{AllocError, Global};
use std::marker::Model;

/// The declarations of a script so far: its plan, the limits of the stations that follow, and its moment.
#[derive(Drop)]
pub struct Draft {
    plan: Plan,
    limits: Limits,
    moment: Moment,
}

impl Model for Draft {
    ghost use Rattle.script_ledgers.specs.Drafts.{Drafted, IsPlan};

    ghost Value = { Drafted };

    ghost view = { λ d. record { limits = d.limits; sites = d.plan.sites.items; stations = d.plan.stations.items; moment = d.moment } };

    ghost invariant = { λ d. IsPlan d.plan.sites.items d.plan.stations.items };
}

impl Draft {
    /// No station, default limits, and the first moment.
    pub fn new() -> Self
        ensures { planned result ≡ start }
    {
        Draft {
            plan: Plan::new(),
            limits: Limits::default(),
            moment: Moment::first(),
        }
    }

    /// The plan.
    pub fn plan(&self) -> &Plan
        ensures is { IsPlan self.now.sites self.now.stations }
        ensures sites { result.now.sites.items ≡ self.now.sites }
        ensures stations { result.now.stations.items ≡ self.now.stations }
    {
        &self.plan
    }

    /// The last moment that the script gave; 2000-01-01T00:00:00Z before it gave one.
    pub fn moment(&self) -> Moment
        ensures { result ≡ self.now.moment }
    {
        self.moment
    }

    /// Sets the moment from here on.
    pub fn tell(&mut self, moment: Moment)
        ensures { self.new ≡ record self.old { moment = moment } }
    {
        self.moment = moment;
    }

    /// The number of the station of this name, if there is one.
    pub fn station(&self, name: &Name) -> Option<usize>
        ensures { result ≡ position (λ s. bytes_eq name.now s.name) self.now.stations }
    {
        self.plan.station(name)
    }

    /// The number of the station of this name, if there is one. It looks at the number `near`
    /// first.
    pub(crate) fn station_near(&self, name: &Name, near: usize) -> Option<usize>
        ensures { result ≡ position (λ s. bytes_eq name.now s.name) self.now.stations }
    {
        if self.is_station(near, name) {
            Some(near)
        } else {
            self.station(name)
        }
    }

    // Returns whether there is a station of this number, and it has this name. No other one has it.
    fn is_station(&self, number: usize, name: &Name) -> bool
        ensures { IsTrue result → position (λ s. bytes_eq name.now s.name) self.now.stations ≡ Some number }
    {
        match self.plan.stations.as_slice().get(number) {
            Some(station) => *name == station.name,
            None => false,
        }
    }

    /// The number of the site of this name, if there is one.
    pub fn site(&self, name: &Name) -> Option<usize>
        ensures { result ≡ position (λ s. bytes_eq name.now s.name) self.now.sites }
    {
        self.plan.site(name)
    }

    // Puts the answer to a line of this meaning into the reply.
    //
    // Condition: it needs no ledgers.
    pub(crate) fn answer_asked(
        &mut self,
        alloc: Global,
        asked: ScriptLine<'_>,
        reply: &mut Vec<u8>,
    ) -> Result<(), AllocError>
        requires empty { reply.old.items ≡ [] }
        requires declares { opening (meaning_of asked) ≡ false }
        ensures { OnOk result (step_by (planned self.old) (meaning_of asked.entry) ≡ (planned self.new, reply.new.items)) }
    {
        match asked {
            ScriptLine::Nothing => Ok(()),
            ScriptLine::Fails(fault) => put_fault(reply, fault),
            ScriptLine::Limits(transactions, events, readings, changes) => {
                self.limit(transactions, events, readings, changes, reply)
            }
            ScriptLine::Declares(site, name) => self.declare(site, name, reply),
            ScriptLine::SetsPeriod(site, seconds) => self.period_by(&site, seconds, reply),
            ScriptLine::SetsOrder(site, order) => self.order_by(&site, order, reply),
            ScriptLine::SetsSettle(site, rule) => self.settle_by(&site, rule, reply),
            ScriptLine::Tells(moment) => {
                self.tell(moment);
                Ok(())
            }
            ScriptLine::AsksMeaning(text) => put_asked(alloc, reply, text, self.moment),
            ScriptLine::Marks(word) => put_mark(reply, &word),
            ScriptLine::Sends(_, _)
            | ScriptLine::Delivers(_, _)
            | ScriptLine::Commands(_, _)
            | ScriptLine::AsksEnergy(_)
            | ScriptLine::AsksExport(_)
            | ScriptLine::AsksTotal(_)
            | ScriptLine::AsksBoard(_)
            | ScriptLine::Lists(_, _, _) => unreachable!(),
        }
    }
}

impl Draft {
    // Sets the limits of the stations that follow, or puts the fault of limits out of range into
    // the reply.
    fn limit(
        &mut self,
        transactions: u64,
        events: u64,
        readings: u64,
        changes: u64,
        reply: &mut Vec<u8>,
    ) -> Result<(), AllocError>
        requires { reply.old.items ≡ [] }
        ensures { OnOk result (limited_to (planned self.old) transactions events readings changes ≡ (planned self.new, reply.new.items)) }
    {
        match Limits::new(transactions, events, readings, changes) {
            Some(limits) => {
                self.limits = limits;
                Ok(())
            }
            None => put_fault(reply, LineFault::PlanLimit),
        }
    }

    // Gives the settlement periods of a site another length, or puts a fault into the reply: it is no such
    // length, or there is no such site.
    fn period_by(
        &mut self,
        site: &Name,
        seconds: u64,
        reply: &mut Vec<u8>,
    ) -> Result<(), AllocError>
        requires { reply.old.items ≡ [] }
        ensures { OnOk result (period_to (planned self.old) site.now seconds ≡ (planned self.new, reply.new.items)) }
    {
        let Some(period) = period_of(seconds) else {
            return put_fault(reply, LineFault::PlanLimit);
        };
        let Some(number) = self.site(site) else {
            return put_fault(reply, LineFault::UnknownSite);
        };
        self.set_period(number, period);
        Ok(())
    }

    // Gives the settlement periods of the site of this number another length.
    fn set_period(&mut self, site: usize, period: Period)
        requires { site < length self.old.sites }
        ensures { self.new ≡ record self.old { sites = sites_by site period self.old.sites } }
    {
        self.plan.set_period(site, period);
    }

    // Gives a site another order of readings, or puts a fault into the reply if there is no such site.
    fn order_by(&mut self, site: &Name, order: Order, reply: &mut Vec<u8>) -> Result<(), AllocError>
        requires { reply.old.items ≡ [] }
        ensures { OnOk result (order_to (planned self.old) site.now order ≡ (planned self.new, reply.new.items)) }
    {
        let Some(number) = self.site(site) else {
            return put_fault(reply, LineFault::UnknownSite);
        };
        self.set_order(number, order);
        Ok(())
    }

    // Gives the site of this number another order of readings.
    fn set_order(&mut self, site: usize, order: Order)
        requires { site < length self.old.sites }
        ensures { self.new ≡ record self.old { sites = sites_in site order self.old.sites } }
    {
        self.plan.set_order(site, order);
    }

    // Gives a site another rule of settling, or puts a fault into the reply: there is no such site.
    fn settle_by(
        &mut self,
        site: &Name,
        rule: Settle,
        reply: &mut Vec<u8>,
    ) -> Result<(), AllocError>
        requires { reply.old.items ≡ [] }
        ensures { OnOk result (settle_to (planned self.old) site.now rule ≡ (planned self.new, reply.new.items)) }
    {
        let Some(number) = self.site(site) else {
            return put_fault(reply, LineFault::UnknownSite);
        };
        self.set_settle(number, rule);
        Ok(())
    }

    // Gives the site of this number another rule of settling.
    fn set_settle(&mut self, site: usize, rule: Settle)
        requires { site < length self.old.sites }
        ensures { self.new ≡ record self.old { sites = sites_settling site rule self.old.sites } }
    {
        self.plan.set_settle(site, rule);
    }

    // Adds a station, or puts the fault for which it is refused into the reply.
    fn declare(&mut self, site: Name, name: Name, reply: &mut Vec<u8>) -> Result<(), AllocError>
        requires { reply.old.items ≡ [] }
        ensures { OnOk result (declared_to (planned self.old) site name ≡ (planned self.new, reply.new.items)) }
    {
        if self.is_past_plan(&site) {
            return put_fault(reply, LineFault::PlanLimit);
        }
        if self.station(&name).is_some() {
            return put_fault(reply, LineFault::StationTwice);
        }
        self.join(site, name);
        Ok(())
    }

    // Returns whether with one more station, of this site, the plan would have more than it may.
    fn is_past_plan(&self, site: &Name) -> bool
        ensures { result ≡ is_past_plan (planned self.now) site.now }
    {
        self.plan.is_past(site, &self.limits)
    }

    // Adds a station of a new name; there is room for it.
    fn join(&mut self, site: Name, name: Name)
        requires room { is_past_plan (planned self.old) site ≡ false }
        requires new { position (λ s. bytes_eq name s.name) self.old.stations ≡ None }
        ensures { planned self.new ≡ (joined_by None (planned self.old) site name).0 }
    {
        self.plan.declare(
            site,
            0,
            Periods::default(),
            Order::default(),
            name,
            self.limits,
        );
    }
}

// The length of settlement periods of this many seconds, if it is one of the four.
fn period_of(seconds: u64) -> Option<Period>
    ensures is { is_some result ≡ is_period seconds }
    ensures value { IfSome result (λ p. p ≡ seconds) }
{
    match u16::try_from(seconds) {
        Ok(seconds) => Period::new(seconds),
        Err(_) => None,
    }
}
