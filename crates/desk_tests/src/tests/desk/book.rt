ghost use Rattle.std.specs.Prelude.{◌≡◌, IfSome};
ghost use Rattle.site_book.specs.Tables.{HasTable, NamedBy};

use ledger_model::{Figures, Limits};
use site_book::{Naming, SiteBook, Tables, Told, Viewer};
use std::alloc::Global;
use std::marker::Brand;
use std::sync::Wait;
use std::thread;
use std::thread::Threads;

// What a scene does with a book of two rows and its two viewers.
#[derive(Clone, Copy)]
enum Scene {
    Rows,
    Late,
    Threads,
}

fn events(events: u64) -> Figures {
    Figures {
        events,
        ..Figures::zero()
    }
}

// The limits of a station that declares none.
fn default_limits() -> Option<Limits>
    ensures { IfSome result (λ l. l.readings ≡ 16_384) }
{
    Limits::new(1_024, 16_384, 16_384, 1 << 63)
}

// A post, if the book takes it.
fn posted<J: Naming>(
    book: &mut SiteBook<J>,
    limits: &Limits,
    row: u16,
    figures: Figures,
) -> Option<Told<J>> {
    if book.holds(row, limits) && figures.within(limits) && book.can_post() {
        Some(book.post(row, figures))
    } else {
        None
    }
}

// A viewer learns what its site's book gave.
fn learnt<J: Naming>(viewer: &mut Viewer<J>, told: Told<J>) -> bool {
    let is_mine = told.site() == viewer.site();
    if is_mine {
        viewer.learn(told);
    }
    is_mine
}

// Whether the book took the viewer back.
fn is_taken<J: Naming>(book: &mut SiteBook<J>, viewer: Viewer<J>) -> bool {
    let is_mine = viewer.site() == book.site();
    if is_mine {
        book.absorb_viewer(viewer);
    }
    is_mine
}

// Whether this is a book of site 1 with two rows of these limits, without a post.
fn is_new<J: Naming>(book: &SiteBook<J>, limits: &Limits) -> bool {
    let other = Limits::new(1_024, 16_384, 16_384, 9);
    let holds = book.holds(1, limits) && !book.holds(2, limits);
    let holds_other = other.is_none_or(|other| book.holds(1, &other));
    book.site() == 1 && book.totals() == Figures::zero() && holds && !holds_other
}

// Whether the viewer is one of site 1, and saw nothing yet.
fn is_blank<J: Naming>(viewer: &mut Viewer<J>) -> bool {
    viewer.site() == 1 && viewer.glance() == Figures::zero()
}

// Plays a scene; returns whether all was as it should be, `None` if a post is refused.
fn play<J: Naming + Send + Sync, R: Threads + Wait + Sync>(
    rt: &R,
    book: &mut SiteBook<J>,
    one: &mut Viewer<J>,
    other: &mut Viewer<J>,
    scene: Scene,
) -> Option<bool> {
    let limits = default_limits()?;
    if !is_new(book, &limits) || !is_blank(one) {
        return None;
    }
    match scene {
        Scene::Rows => three_posts(book, one, &limits),
        Scene::Late => sees_late(book, other, one, &limits),
        Scene::Threads => Some(two_watch(rt, book, one, other, &limits)),
    }
}

// Opens a book of the second of two tables and plays a scene with it; then the book takes back its
// viewers.
fn at_book<J: Naming + Send + Sync, R: Threads + Wait + Sync>(
    rt: &R,
    alloc: Global,
    mut tables: Tables,
    scene: Scene,
) -> Option<bool>
    requires named { NamedBy J.table tables }
    requires there { HasTable tables 1 }
{
    let limits = default_limits()?;
    let opened = SiteBook::<J>::open(alloc, &mut tables, 1, &[limits, limits], 2);
    let (mut book, mut viewers) = opened.ok()?;
    let (mut one, mut other) = (viewers.pop()?, viewers.pop()?);
    let are_left = viewers.is_empty() && tables.has(0) && !tables.has(1) && !tables.has(2);
    let is_right = play(rt, &mut book, &mut one, &mut other, scene)?;
    let are_taken = is_taken(&mut book, one) && is_taken(&mut book, other);
    Some(are_left && is_right && are_taken && book.can_post())
}

fn plays<R: Threads + Wait + Sync>(rt: &R, alloc: Global, scene: Scene) -> bool {
    match Tables::make(alloc, 2) {
        Ok(tables) => at_book::<Brand, R>(rt, alloc, tables, scene) == Some(true),
        Err(_) => false,
    }
}

// Whether posts for rows 0, 1 and 0 again give what they should; `None` if one is refused.
fn three_posts<J: Naming>(
    book: &mut SiteBook<J>,
    viewer: &mut Viewer<J>,
    limits: &Limits,
) -> Option<bool> {
    let first = posted(book, limits, 0, events(1))?;
    let second = posted(book, limits, 1, events(2))?;
    let both = first.site() == 1 && second.site() == 1;
    let learnt_both = learnt(viewer, first) && learnt(viewer, second);
    let last = posted(book, limits, 0, events(3))?;
    let is_told = last.posts() == 3 && learns_last(viewer, last);
    Some(both && learnt_both && is_told && has_rows(book))
}

// Whether the book has 3 events in row 0 and 2 in row 1, after three posts.
fn has_rows<J: Naming>(book: &SiteBook<J>) -> bool {
    let rows = book.rows() == 2 && book.row(0) == events(3) && book.row(1) == events(2);
    rows && book.totals() == events(5) && book.posts() == 3
}

// Whether a viewer that learnt two posts sees the last before and after it learns it.
fn learns_last<J: Naming>(viewer: &mut Viewer<J>, last: Told<J>) -> bool {
    let before = viewer.posts() == 2 && viewer.glance() == events(5);
    before && learnt(viewer, last) && viewer.glance() == events(5)
}

#[test]
fn posts_and_plans(rt: HostRuntime) {
    assert!(rt; plays(&rt, rt.alloc(), Scene::Rows));
}

// Whether a viewer that learns one post late, and one that learns none, see the last; `None` if a post is
// refused.
fn sees_late<J: Naming>(
    book: &mut SiteBook<J>,
    told_nothing: &mut Viewer<J>,
    told_once: &mut Viewer<J>,
    limits: &Limits,
) -> Option<bool> {
    let first = posted(book, limits, 0, events(7))?;
    let again = posted(book, limits, 0, events(8))?;
    let is_seen = learnt(told_once, again) && told_once.glance() == events(8);
    posted(book, limits, 0, events(6))?;
    let is_last = sees_last(told_once);
    let is_late = learnt(told_once, first) && sees_last(told_once);
    Some(is_seen && is_last && is_late && sees_last(told_nothing))
}

// Whether the viewer sees the third post.
fn sees_last<J: Naming>(viewer: &mut Viewer<J>) -> bool {
    viewer.glance() == events(6) && viewer.posts() == 3
}

#[test]
fn glance_frozen(rt: HostRuntime) {
    assert!(rt; plays(&rt, rt.alloc(), Scene::Late));
}

const POSTS: u64 = 100_000;

// The figures of one post in many: `up` numbers it, and the others follow from it.
fn numbered(post: u64) -> Figures {
    Figures {
        events: post % 8_191,
        voided: post % 8_179,
        transactions: post % 1_021,
        complete: post % 1_019,
        missing: post / 3,
        up: post,
        down: POSTS.saturating_sub(post),
        export_up: post / 5,
        export_down: post % 8_167,
    }
}

// Glances until it sees the last post; returns whether each glance gave the totals of a post, and
// none went back.
fn sees_posts_alone<J: Naming, R: Wait>(rt: &R, viewer: &mut Viewer<J>) -> bool {
    let mut last = 0;
    for _ in rt.forever() {
        let seen = viewer.glance();
        let is_first = last == 0 && seen == Figures::zero();
        if seen.up < last || !is_first && seen != numbered(seen.up) {
            return false;
        }
        last = seen.up;
        if last == POSTS {
            return true;
        }
    }
    unreachable!()
}

fn post_all<J: Naming>(book: &mut SiteBook<J>, limits: &Limits) -> bool {
    for post in 1..=POSTS {
        if posted(book, limits, 0, numbered(post)).is_none() {
            return false;
        }
    }
    true
}

// Whether two viewers see only totals of posts while posts are made.
fn two_watch<J: Naming + Send + Sync, R: Threads + Wait + Sync>(
    rt: &R,
    book: &mut SiteBook<J>,
    one: &mut Viewer<J>,
    other: &mut Viewer<J>,
    limits: &Limits,
) -> bool {
    let (is_posted, (one, other)) = thread::join(
        rt,
        || post_all(book, limits),
        || {
            thread::join(
                rt,
                || sees_posts_alone(rt, one),
                || sees_posts_alone(rt, other),
            )
        },
    );
    is_posted && one && other
}

#[test]
fn viewers_on_threads(rt: HostRuntime) {
    assert!(rt; plays(&rt, rt.alloc(), Scene::Threads));
}
