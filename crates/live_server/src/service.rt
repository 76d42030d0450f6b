//! A live server at a desk that the caller hands in.
ghost use Rattle.std.{specs.Prelude.{◌≡◌, ◌≤◌, All, IfOk, IfSome, sum_by}, specs.Thread.{IsSend, IsSync}};
ghost use Rattle.ledger_model.specs.Ranges.{most_plan_readings};
ghost use Rattle.site_desk.specs.Roster.{AreNewPlaces};
ghost use Rattle.station_link.specs.Attended.{IsAnswered};
ghost use Rattle.live_server.{specs.Browsing.IsSeenWithBoards, specs.Told.{Tells, operator_input}};
ghost use Rattle.running_desk.{specs.Ordered.lines_in, specs.Replies.AddsReplies};

use crate::acceptor::{Acceptor, Acceptors};
use crate::boards::SeenWithBoards;
use crate::shared::{Shared, Viewers};
use core::thread::{Anything, Stack};
use running_desk::{Host, Input, Output, Running, Serves, ServiceFault};
use site_book::Viewer;
use site_desk::{Pass, Plan};
use station_link::Delivers;
use std::alloc::Global;
use std::net::TcpListener;
use std::sync::atomic::Ordering;
use std::thread;
use std::thread::{PromisedHandle, Scope, Threads};

// The stack of a session's thread, in bytes of address space.
const SESSION_STACK: usize = 8 * 1024 * 1024;

// The stack of any other thread.
const SMALL_STACK: usize = 1024 * 1024;

/// The options of a live server.
#[derive(Clone, Copy)]
pub struct Live {
    /// The port of 127.0.0.1 that it listens on; for 0 the system chooses one.
    pub port: u16,
    /// How often it glances at the totals of each site, a second apart.
    pub glances: u16,
    /// Whether it reports which sessions begin and end.
    pub is_logged: bool,
    /// The port of 127.0.0.1 where browsers find boards, if any; for 0 the system chooses one.
    pub board_port: Option<u16>,
    /// After how many connections the server ends, without an operator; `None` if its operator's lines end it.
    pub connections: Option<u8>,
}

/// The parts of a live server.
#[derive(Drop)]
pub struct Run<'a, R> {
    /// Memory, threads, locks, the clock and sockets.
    pub rt: &'a R,
    /// The plan that is served.
    pub plan: &'a Plan,
    /// The options.
    pub live: Live,
    /// A listener for stations that is there already, in place of one at the port of the options.
    pub listener: Option<TcpListener>,
}

/// The result of a server, after all threads have ended.
#[derive(Drop)]
pub struct Ran<S: Serves, W: Output> {
    /// All passes in the desk's pool.
    pub passes: Vec<Pass>,
    /// The viewers.
    pub viewers: Vec<Viewer<S::Names>>,
    /// What came with the answers of sessions.
    pub answers: Vec<S::Seen>,
    /// What was seen of the desk's journal with the boards in browsers.
    pub boards: Vec<S::Seen>,
    /// How the operator's lines ended, or why no connection was served; after Ok, what was seen of the desk's journal
    /// with the answers to these lines.
    pub ended: Result<Vec<S::Seen>, ServiceFault>,
    /// The output.
    pub output: W,
}

/// Listens, writes `listening 127.0.0.1:<port>` to `output`, and serves connections at the desk that is handed in, up
/// to two sessions of each station at once. It goes on until the operator's lines end or say `close`, or until the desk
/// accepts no change any more, which is a `WriteFault`. Meanwhile it answers the lines of `input`; each answer is out
/// before the next line is read. At the end it ends all sessions. If it has to serve a number of connections, it reads
/// no line, and ends when so many have ended. It reports sessions and totals to `lines`. The passes that were given out
/// before are in the desk's pool.
///
/// Condition: the desk was opened for this plan, and the plan's limits allow no more than 1,048,576
/// readings in all.
pub fn serve_plan_at<S: Serves + Sync, R: Host, I: Input, W: Output, L: Output>(
    run: Run<'_, R>,
    serves: &S,
    passes: Vec<Pass>,
    viewers: Vec<Viewer<S::Names>>,
    input: &mut I,
    mut output: W,
    lines: L,
) -> Result<Ran<S, W>, ServiceFault>
    requires opened { AreNewPlaces run.plan.now.sites.items run.plan.now.stations.items (S.roster serves.now).stations }
    requires readings { sum_by (λ s. s.limits.readings) run.plan.now.stations.items ≤ most_plan_readings }
    ensures answered { IfOk result (λ r. All (IsAnswered S.gives) r.answers.items) }
    ensures boards { IfOk result (λ r. All (IsSeenWithBoards (S.shows serves.now)) r.boards.items) }
    ensures tells { IfOk result (λ r. IfOk r.ended (λ seen. Tells S.gives (S.shows serves.now) run.entry.plan.now.sites.items (S.roster serves.now).stations
        (lines_in (operator_input run.entry.live.connections (I.remaining input.old))) (W.contents output) (W.contents r.output) seen.items)) }
{
    let (rt, live) = (run.rt, run.live);
    let acceptors = Acceptors::open(rt, run.listener, live, &mut output)?;
    let running = Running::open(rt, rt.alloc(), run.plan, serves, passes);
    let shared = Shared::open(running, live, lines)?;
    let (ended, boards, viewers, output) = serve_beside(
        &shared, &acceptors, viewers, input, output,
    );
    let (passes, answers) = shared.into_parts();
    Ok(Ran {
        passes,
        viewers,
        answers,
        boards,
        ended,
        output,
    })
}

// The result at the end of the threads: how the operator's lines ended, what was seen with boards in browsers, the
// viewers, and the output.
type Ended<S, W> = (
    Result<Vec<<S as Delivers>::Seen>, ServiceFault>,
    Vec<<S as Delivers>::Seen>,
    Viewers<S>,
    W,
);

// Serves on threads while this thread answers the operator's lines, and then ends them all.
fn serve_beside<S: Serves + Sync, R: Host, I: Input, W: Output, L: Output>(
    shared: &Shared<'_, S, R, L>,
    acceptors: &Acceptors,
    viewers: Viewers<S>,
    input: &mut I,
    output: W,
) -> Ended<S, W>
    ensures tells { IfOk result.0 (λ seen. AddsReplies S.gives (S.shows shared.now.running.serves.now) shared.now.running.plan.now.sites.items shared.now.running.desk.now.stations
        (lines_in (operator_input shared.now.live.connections (I.remaining input.old))) (W.contents output) (W.contents result.3) seen.items) }
    ensures boards { All (IsSeenWithBoards (S.shows shared.now.running.serves.now)) result.1.items }
{
    thread::scope(
        thread::scope_env(),
        shared.rt,
        |scope| -> Ended<S, W>
            requires { IsSync R.row × IsSend S.Names.row × IsSync S.Names.row × IsSend S.Cell.row × IsSend S.Seen.row × IsSync S.row × IsSend L.row }
            ensures { IfOk result.0 (λ seen. AddsReplies S.gives (S.shows shared.entry.now.running.serves.now) shared.entry.now.running.plan.now.sites.items shared.entry.now.running.desk.now.stations
                (lines_in (operator_input shared.entry.now.live.connections (I.remaining input.entry.now))) (W.contents output) (W.contents result.3) seen.items)
                × All (IsSeenWithBoards (S.shows shared.entry.now.running.serves.now)) result.1.items }
        {
            let mut own = output;
            let watching = Stack::new()
                .stack_size(SMALL_STACK)
                .spawn_scoped_with(scope, Anything, move || shared.watch(viewers));
            let (is_started, browsing) = start_all(scope, shared, acceptors);
            let ended = answer_lines(shared, is_started, input, &mut own);
            shared.workers.closing.store(true, Ordering::SeqCst);
            acceptors.call_away(shared.rt);
            let boards = seen_with_boards(shared.rt, shared.alloc, shared.running.serves, browsing);
            let viewers = match watching {
                Ok(watching) => watching.join(shared.rt),
                Err(refused) => (refused.value)(),
            };
            (ended, boards, viewers, own)
        },
    )
}

// What was seen with boards in browsers, once their thread has ended.
fn seen_with_boards<S: Serves, R: Threads>(
    rt: &R,
    alloc: Global,
    serves: &S,
    browsing: Option<Browsing<S>>,
) -> Vec<S::Seen>
    requires { IfSome browsing (λ h. h.promise.0.value ≡ serves.now) }
    ensures { All (IsSeenWithBoards (S.shows serves.now)) result.items }
{
    match browsing {
        Some(browsing) => browsing.join(rt),
        None => Vec::new(alloc),
    }
}

// Answers the operator's lines to their end, or waits until as many connections have ended as it serves. Without all
// its threads it serves nobody.
fn answer_lines<S: Serves, R: Host, I: Input, W: Output, L: Output>(
    shared: &Shared<'_, S, R, L>,
    is_started: bool,
    input: &mut I,
    output: &mut W,
) -> Result<Vec<S::Seen>, ServiceFault>
    ensures { IfOk result (λ seen. AddsReplies S.gives (S.shows shared.now.running.serves.now) shared.now.running.plan.now.sites.items shared.now.running.desk.now.stations
        (lines_in (operator_input shared.now.live.connections (I.remaining input.old))) (W.contents output.old) (W.contents output.new) seen.items) }
{
    match shared.live.connections {
        _ if !is_started => Err(ServiceFault::OutOfMemory),
        None => shared.running.operate(input, output),
        Some(_) => {
            shared.workers.wait_for_all(shared.rt);
            Ok(Vec::new(shared.alloc))
        }
    }
}

// The thread that answers browsers.
type Browsing<S> = PromisedHandle<Vec<<S as Delivers>::Seen>, SeenWithBoards<S>>;

// Starts the threads at both acceptors. Returns whether all could start, and the thread that answers browsers.
fn start_all<'s, E: 's, S: Serves + Sync, R: Host, L: Output>(
    scope: &'s Scope<'s, E>,
    shared: &'s Shared<'_, S, R, L>,
    acceptors: &'s Acceptors,
) -> (bool, Option<Browsing<S>>)
    ensures { IfSome result.1 (λ h. h.promise.0.value ≡ shared.now.running.serves.now) }
{
    for worker in 0..shared.workers.marks.len() {
        if !start_worker(scope, shared, &acceptors.stations, worker) {
            return (false, None);
        }
    }
    let Some(acceptor) = &acceptors.browsers else {
        return (true, None);
    };
    let browsing = start_boards(scope, shared, acceptor);
    (acceptor.is_entered(browsing.is_some()), browsing)
}

// Starts a worker, and returns whether it could start.
fn start_worker<'s, E: 's, S: Serves + Sync, R: Host, L: Output>(
    scope: &'s Scope<'s, E>,
    shared: &'s Shared<'_, S, R, L>,
    acceptor: &'s Acceptor,
    worker: usize,
) -> bool {
    let Some(mark) = shared.workers.marks.get(worker) else {
        return false;
    };
    let started = Stack::new().stack_size(SESSION_STACK).spawn_scoped_with(
        scope,
        Anything,
        move || shared.work(acceptor, worker, mark),
    );
    acceptor.is_entered(started.is_ok())
}

// Starts the thread that answers browsers; none if it can't start.
fn start_boards<'s, E: 's, S: Serves + Sync, R: Host, L: Output>(
    scope: &'s Scope<'s, E>,
    shared: &'s Shared<'_, S, R, L>,
    acceptor: &'s Acceptor,
) -> Option<Browsing<S>>
    ensures { IfSome result (λ h. h.promise.0.value ≡ shared.now.running.serves.now) }
{
    let promise = SeenWithBoards::of(shared.running.serves);
    let started = Stack::new().stack_size(SMALL_STACK).spawn_scoped_with(
        scope,
        promise,
        move || -> Vec<S::Seen>
            ensures { All (IsSeenWithBoards (S.shows shared.entry.now.running.serves.now)) result.items }
        { shared.serve_boards(acceptor) },
    );
    match started {
        Ok(browsing) => Some(browsing),
        Err(_) => None,
    }
}
