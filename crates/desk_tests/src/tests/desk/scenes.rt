// Scenes at a desk of one site. It closes after each scene, but not before it has all passes and
// viewers.
ghost use Rattle.std.specs.Prelude.{ℕ, ◌<◌, length};
ghost use Rattle.site_book.specs.Tables.{HasTable, NamedBy};

use super::gates::{held_station, two_passes};
use super::has;
use super::plans::{changes, closes_with_all, each_pass, has_changes, posts, second_board};
use super::three::{has_three, three_sides};
use crate::tests::plans::{opened, plan_of};
use energy_flow::Work;
use site_book::{Naming, Tables, Viewer};
use site_desk::{Closed, Desk, Pass, Plan};
use std::alloc::Global;
use std::marker::Brand;
use std::process::Abort;
use std::sync::Wait;
use std::test::Fail;
use std::thread::Threads;
use std::time::Clock;

#[derive(Clone, Copy)]
pub enum Scene {
    Posts,
    HeldStation,
    TwoPasses,
    Changes,
    EachPass,
    SecondBoard,
    ThreeSides,
}

// The stations of the plan.
fn stations(scene: Scene) -> &'static [(u16, &'static str)] {
    match scene {
        Scene::HeldStation | Scene::SecondBoard | Scene::ThreeSides => &[(0, "A"), (0, "B")],
        _ => &[(0, "A")],
    }
}

// The passes that are left; none if the scene saw something wrong.
fn play<J: Naming + Send + Sync, R: Threads + Wait + Clock + Sync>(
    rt: &R,
    alloc: Global,
    desk: &Desk<J>,
    viewers: &mut Vec<Viewer<J>>,
    scene: Scene,
) -> Option<Vec<Pass>> {
    match scene {
        Scene::Posts => posts(rt, alloc, desk),
        Scene::HeldStation => held_station(rt, alloc, desk),
        Scene::TwoPasses => two_passes(rt, alloc, desk),
        Scene::Changes => changes(rt, alloc, desk),
        Scene::EachPass => each_pass(rt, alloc, desk),
        Scene::SecondBoard => second_board(rt, alloc, desk),
        Scene::ThreeSides => three_sides(rt, alloc, desk, viewers),
    }
}

// Returns whether the desk closed as the scene left it.
fn is_left<J: Naming>(alloc: Global, closed: &Closed<J>, scene: Scene, work: &mut Work) -> bool {
    match scene {
        Scene::Changes => has_changes(closed),
        Scene::Posts => has(closed, 1, 1),
        Scene::ThreeSides => has_three(alloc, closed, work),
        _ => true,
    }
}

fn at_desk<J: Naming + Send + Sync, R: Abort + Threads + Wait + Clock + Sync>(
    rt: &R,
    alloc: Global,
    tables: Tables,
    plan: &Plan,
    scene: Scene,
) -> Result<(), Fail>
    requires named { NamedBy J.table tables }
    requires there { (site : ℕ) → site < length plan.now.sites.items → HasTable tables site }
{
    let (desk, mut viewers) = opened::<J>(alloc, tables, plan).ok_or("no desk")?;
    let passes = play(rt, alloc, &desk, &mut viewers, scene).ok_or("something else was seen")?;
    let closed = closes_with_all(alloc, desk, passes, viewers).ok_or("not closed")?;
    let mut work = Work::open(rt);
    assert!(rt; is_left(alloc, &closed, scene, &mut work));
    Ok(())
}

// Plays a scene at a desk of its own.
pub fn plays<R: Abort + Threads + Wait + Clock + Sync>(
    rt: &R,
    alloc: Global,
    scene: Scene,
) -> Result<(), Fail> {
    let plan = plan_of(&["north"], stations(scene), 1).ok_or("no plan")?;
    let tables = Tables::make(alloc, plan.sites.len() as u16)?;
    at_desk::<Brand, R>(rt, alloc, tables, &plan, scene)
}
