use slot_arena::{MAX_SLOTS, SlotArena, SlotId};
use std::alloc::Global;
use std::rc::Rc;
use std::test::Fail;

// Whether two slots take two values and no third, and a slot that is given back takes another.
fn goes_round(arena: &mut SlotArena<u32>) -> Option<bool> {
    let seven = arena.take(7).ok()?;
    arena.take(8).ok()?;
    let is_full = arena.take(9).err()? == 9 && arena.free() == 0;
    let is_given = arena.give(seven) == 7 && !arena.is_held(seven);
    Some(is_full && is_given && arena.take(9).is_ok())
}

#[test]
fn small_arena(rt: HostRuntime) -> Result<(), Fail> {
    let mut arena = SlotArena::with_capacity(rt.alloc(), 2)?;
    assert!(rt; goes_round(&mut arena) == Some(true));
    assert!(rt; (arena.capacity(), arena.free()) == (2, 0));
    Ok(())
}

#[test]
fn an_arena_of_no_slots_takes_nothing(rt: HostRuntime) -> Result<(), Fail> {
    let mut arena = SlotArena::with_capacity(rt.alloc(), 0)?;
    assert!(rt; arena.take(7).err() == Some(7) && arena.capacity() == 0);
    Ok(())
}

// Two values; the first was changed in its slot.
fn changed(arena: &mut SlotArena<u32>) -> Option<(u32, u32)> {
    let first = arena.take(10).ok()?;
    let second = arena.take(20).ok()?;
    *arena.get_mut(first) = 15;
    Some((*arena.get(first), *arena.get(second)))
}

#[test]
fn a_changed_value_stays_in_its_slot(rt: HostRuntime) -> Result<(), Fail> {
    let mut arena = SlotArena::with_capacity(rt.alloc(), 3)?;
    assert!(rt; changed(&mut arena) == Some((15, 20)));
    Ok(())
}

// The value in the slot `index` in the round `round`.
fn value_of(index: u32, round: u32) -> u32 {
    index.wrapping_mul(2_654_435_761).wrapping_add(round)
}

// Fills an empty arena, and returns the ids in the order in which they came.
fn fill(alloc: Global, arena: &mut SlotArena<u32>, round: u32) -> Result<Vec<SlotId>, Fail> {
    let mut ids = Vec::with_capacity(alloc, MAX_SLOTS as usize)?;
    for index in 0..MAX_SLOTS {
        let id = arena
            .take(value_of(index, round))
            .ok()
            .ok_or("full too soon")?;
        ids.push(id)?;
    }
    Ok(ids)
}

// Gives the slots back, the last first; returns whether each held its value of the first round.
fn give_back(arena: &mut SlotArena<u32>, ids: &[SlotId]) -> bool {
    let mut index = MAX_SLOTS;
    for id in ids.iter().rev() {
        index = index.wrapping_sub(1);
        if !arena.is_held(*id) || arena.give(*id) != value_of(index, 0) {
            return false;
        }
    }
    true
}

// Whether each slot holds its value of the second round.
fn holds_all(arena: &SlotArena<u32>, ids: &[SlotId]) -> bool {
    let mut index = 0u32;
    for id in ids.iter() {
        if !arena.is_held(*id) || *arena.get(*id) != value_of(index, 1) {
            return false;
        }
        index = index.wrapping_add(1);
    }
    true
}

#[test]
fn every_slot_is_filled_emptied_and_filled_again(rt: HostRuntime) -> Result<(), Fail> {
    let mut arena = SlotArena::with_capacity(rt.alloc(), MAX_SLOTS)?;
    let ids = fill(rt.alloc(), &mut arena, 0)?;
    assert!(rt; arena.free() == 0 && arena.take(0).err() == Some(0));
    assert!(rt; give_back(&mut arena, &ids) && arena.free() == MAX_SLOTS);
    let ids = fill(rt.alloc(), &mut arena, 1)?;
    assert!(rt; holds_all(&arena, &ids));
    Ok(())
}

// An arena of four slots that hold the value.
fn four_of(alloc: Global, counted: &Rc<u32>) -> Result<SlotArena<Rc<u32>>, Fail> {
    let mut arena = SlotArena::with_capacity(alloc, 4)?;
    for _ in 0..4 {
        arena.take(counted.clone()?).ok().ok_or("full too soon")?;
    }
    Ok(arena)
}

// Gives the slot of the first value back.
fn give_first(arena: &mut SlotArena<Rc<u32>>) {
    let first = SlotId::new(0);
    if arena.is_held(first) {
        drop(arena.give(first));
    }
}

#[test]
fn values_are_dropped_once(rt: HostRuntime) -> Result<(), Fail> {
    let counted = Rc::new(rt.alloc(), 0)?;
    let mut arena = four_of(rt.alloc(), &counted)?;
    drop(arena.take(counted.clone()?));
    assert!(rt; Rc::strong_count(&counted) == 5);
    give_first(&mut arena);
    assert!(rt; Rc::strong_count(&counted) == 4);
    drop(arena);
    assert!(rt; Rc::strong_count(&counted) == 1);
    Ok(())
}

// Compiles only if an arena may be moved to another thread.
fn crosses<T: Send + Drop>(_value: T) {}

#[test]
fn an_arena_crosses_threads_as_its_values_do(rt: HostRuntime) -> Result<(), Fail> {
    let arena: SlotArena<u64> = SlotArena::with_capacity(rt.alloc(), 1)?;
    crosses(arena);
    Ok(())
}
