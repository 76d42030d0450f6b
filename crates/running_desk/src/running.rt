//! The desk of a plan while it is served.
ghost use Rattle.std.{specs.Prelude.{◌≡◌, ◌≤◌, ◌<◌, Err, IfErr, IfOk, IfSome, Some, false, length, sum_by}, specs.List.{list_any, position}, specs.Str.bytes_eq};
ghost use Rattle.ledger_model.specs.Ranges.{most_plan_readings};
ghost use Rattle.running_desk.specs.Replied.{IsShownBoard};
ghost use Rattle.site_desk.specs.Roster.{AreNewPlaces, IsNamed};
ghost use Rattle.station_link.{specs.Session.MayLackPass, specs.declared.ending.Why.Why};

use crate::pass_pool::PassPool;
use crate::serves::Serves;
use board_report::running_text;
use energy_flow::Work;
use ledger_model::Name;
use site_desk::{BoardFault, Desk, EnlistFault, Pass, Plan};
use station_link::Why;
use std::alloc::Global;
use std::sync::{Mutex, Wait};
use std::thread::Threads;

/// The desk of a plan while it is served, with a pool for the passes of its stations.
#[derive(Drop)]
pub struct Running<'a, S: Serves, R> {
    /// Threads, locks and the clock.
    pub rt: &'a R,
    /// Memory.
    pub alloc: Global,
    /// The plan.
    pub plan: &'a Plan,
    /// What is served.
    pub serves: &'a S,
    /// Its desk.
    pub desk: &'a Desk<S::Names, S::Cell>,
    pub(crate) pool: Mutex<PassPool>,
    ghost same: { desk.now ≡ S.roster serves.now },
    ghost stations: { desk.now.stations ≡ S.stations serves.now },
    ghost opened: { AreNewPlaces plan.now.sites.items plan.now.stations.items desk.now.stations },
    ghost readings: { sum_by (λ s. s.limits.readings) plan.now.stations.items ≤ most_plan_readings },
}

impl<'a, S: Serves, R> Running<'a, S, R> {
    /// The desk of this plan, with the passes that were given out before in the pool.
    ///
    /// Conditions: the desk was opened for this plan, and the plan's limits allow no more than 1,048,576
    /// readings in all.
    pub fn open(rt: &'a R, alloc: Global, plan: &'a Plan, serves: &'a S, passes: Vec<Pass>) -> Self
        requires opened { AreNewPlaces plan.now.sites.items plan.now.stations.items (S.roster serves.now).stations }
        requires readings { sum_by (λ s. s.limits.readings) plan.now.stations.items ≤ most_plan_readings }
        ensures plan { result.plan.now ≡ plan.now }
        ensures serves { result.serves.now ≡ serves.now }
        ensures desk { result.desk.now ≡ S.roster serves.now }
    {
        let desk = serves.desk();
        let pool = Mutex::new(PassPool::of(passes));
        Running {
            rt,
            alloc,
            plan,
            serves,
            desk,
            pool,
        }
    }

    /// All passes in the pool.
    pub fn into_passes(self) -> Vec<Pass> {
        self.pool.into_inner().into_passes()
    }
}

impl<S: Serves, R: Threads + Wait> Running<'_, S, R> {
    /// A pass of the station of this name: one from the pool, or else a new one; then the pool has room for it from
    /// now on. It may wait for the station's lock.
    pub fn pass_of(&self, name: &Name) -> Result<Pass, Why>
        ensures lacks { IfErr result MayLackPass }
        ensures unknown { result ≡ Err Why.UnknownStation → list_any (λ s. bytes_eq name.now s.name) self.now.desk.now.stations ≡ false }
        ensures named { IfOk result (λ p. IsNamed self.now.desk.now.stations name.now p.station) }
    {
        let Some(station) = self.desk.number(name) else {
            return Err(Why::UnknownStation);
        };
        match self.left_pass(station) {
            Some(pass) => Ok(pass),
            None => self.new_pass(name),
        }
    }

    // A pass of this station from the pool.
    fn left_pass(&self, station: u16) -> Option<Pass>
        ensures { IfSome result (λ p. p.station ≡ station) }
    {
        self.pool.lock(self.rt).take(station)
    }

    // A new pass of the station of this name.
    fn new_pass(&self, name: &Name) -> Result<Pass, Why>
        ensures lacks { IfErr result MayLackPass }
        ensures unknown { result ≡ Err Why.UnknownStation → list_any (λ s. bytes_eq name.now s.name) self.now.desk.now.stations ≡ false }
        ensures named { IfOk result (λ p. IsNamed self.now.desk.now.stations name.now p.station) }
    {
        if self.pool.lock(self.rt).reserve().is_err() {
            return Err(Why::OutOfMemory);
        }
        match self.desk.enlist(self.rt, name) {
            Ok(pass) => Ok(pass),
            Err(EnlistFault::UnknownStation) => Err(Why::UnknownStation),
            Err(EnlistFault::TooManyPasses) => Err(Why::TooManyPasses),
        }
    }

    /// Puts a pass back into the pool, for the next session of its station. The error gives it back if there is no room
    /// for it, which no run meets: room is made before a pass is given out.
    pub fn lay(&self, pass: Pass) -> Result<(), Pass>
        ensures { IfErr result (λ back. back ≡ pass) }
    {
        self.pool.lock(self.rt).lay(pass)
    }

    /// A pass of the station that a request asks for, with its name.
    pub fn let_in(&self, asked: Result<Name, Why>) -> Result<(Name, Pass), Why>
        ensures { IfOk result (λ r. IsNamed self.now.desk.now.stations r.0 r.1.station) }
    {
        let name = asked?;
        let pass = self.pass_of(&name)?;
        Ok((name, pass))
    }

    /// The text of the board of the site of this number, counted from 0, with what was seen of the journal then. It
    /// waits for the locks of the site, and for a write to the journal that is under way.
    ///
    /// Condition: the plan has the site ([`site_of`] tests it).
    pub fn board(&self, site: u16) -> Result<(Vec<u8>, S::Seen), BoardFault>
        requires { site < length self.now.plan.now.sites.items }
        ensures { IfOk result (λ r. IsShownBoard (S.shows self.now.serves.now) self.now.plan.now.sites.items self.now.desk.now.stations site r.0.items (Some r.1)) }
    {
        let mut work = Work::open(self.rt);
        let (boards, totals, seen) = self.serves.boards(self.rt, self.alloc, site, &mut work)?;
        match running_text(self.alloc, self.plan, site, boards, totals) {
            Ok(text) => Ok((text, seen)),
            Err(_) => Err(BoardFault::OutOfMemory),
        }
    }
}

/// The number of the site of this name, if there is one.
pub fn site_of(plan: &Plan, name: &Name) -> Option<u16>
    ensures is { result ≡ position (λ s. bytes_eq name.now s.name) plan.now.sites.items }
    ensures there { IfSome result (λ site. site < length plan.now.sites.items) }
{
    match plan.site(name) {
        Some(site) => Some(site as u16),
        None => None,
    }
}
