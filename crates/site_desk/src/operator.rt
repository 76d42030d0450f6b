//! The parts of a running desk that an operator reads: the totals of a station, and the boards of a site at
//! one moment.
ghost use Rattle.std.{specs.Prelude.{◌≡◌, ◌≢◌, ◌==◌, if◌then◌else◌, ◌++◌, ◌∷◌, [], List, ℕ, Err, IfOk, IfSome, OnOk, map}, specs.Sync.Mutex.mutex_guard_value};
ghost use Rattle.site_desk.{specs.declared.fault.BoardFault.BoardFault, specs.Operator.{AreBoardsAt, AreNotedBoards, AreTotalsWithin, IsAmong, IsBoardAt, IsBoardOfCell, IsListingWithin, place_looks, site_looks}, specs.Cell.Cell};
ghost use Rattle.ledger_model.specs.Board.{Board, sum_of_figures};
ghost use Rattle.station_ledger.specs.Quarters.{IsWork};

use crate::cell::StationCell;
use crate::fault::BoardFault;
use crate::has_cell::HasCell;
use crate::locks::Locked;
use crate::notes::Notes;
use crate::roster::StationPlace;
use crate::submit::{board_of, stands_at};
use energy_flow::{Flow, Work};
use ledger_model::{Figures, Name, TxId};
use station_ledger::{StationBoard, TxListing};
use std::alloc::{AllocError, Global};
use std::sync::{Mutex, MutexGuard, Wait};

// The figures of a cell's station, and its imported and exported energy.
pub(crate) fn totals_of(cell: &StationCell) -> (Figures, Flow, Flow)
    ensures { AreTotalsWithin cell.now.limits cell.now.order result.0 result.1 result.2 }
{
    let ledger = cell.ledger();
    (ledger.figures(), ledger.energy(), ledger.export())
}

// The events and readings of a transaction of a cell's station.
pub(crate) fn listing_of(
    cell: &StationCell,
    alloc: Global,
    tx: &TxId,
) -> Result<TxListing, AllocError>
    ensures { IfOk result (IsListingWithin cell.now.limits cell.now.order cell.now.period tx.now) }
{
    cell.ledger().listing(alloc, tx)
}

// The cells of a site's stations, each with its lock held, in the plan's order.
pub(crate) fn hold_stations<'a, R: Wait, C>(
    rt: &R,
    alloc: Global,
    places: &[StationPlace],
    cells: &'a [Locked<C>],
    site: u16,
) -> Result<Vec<MutexGuard<'a, C>>, AllocError> {
    let mut held = Vec::with_capacity(alloc, cells.len())?;
    for (place, cell) in places.iter().zip(cells) {
        if place.site == site {
            let lock: &Mutex<C> = cell;
            held.push(lock.lock(rt))?;
        }
    }
    Ok(held)
}

// The boards of a site's stations; the locks of their cells are held, in the plan's order.
pub(crate) fn site_boards_of<C: HasCell>(
    alloc: Global,
    places: &[StationPlace],
    held: &[MutexGuard<'_, C>],
    site: u16,
    work: &mut Work,
) -> Result<Vec<(Name, StationBoard)>, BoardFault>
    ensures work { IsWork (site_looks places.now site) work.old work.new }
    ensures known { result ≢ Err BoardFault.UnknownStation }
    ensures boards { IfOk result (λ boards. AreBoardsAt places.now site boards.items) }
    ensures held { IfOk result (λ boards. AreNotedBoards (IsAmong (map (λ g. C.cell (mutex_guard_value g)) held.now)) places.now site boards.items) }
{
    let mut boards = Vec::new(alloc);
    for number in 0..places.len() {
        add_board(
            alloc,
            &places[number],
            number,
            held,
            site,
            &mut boards,
            work,
        )?;
    }
    Ok(boards)
}

// Adds the board of the station of this number and place to those before it, if it is at the site. Its
// cell is the first one without a board yet.
fn add_board<C: HasCell>(
    alloc: Global,
    place: &StationPlace,
    number: usize,
    held: &[MutexGuard<'_, C>],
    site: u16,
    boards: &mut Vec<(Name, StationBoard)>,
    work: &mut Work,
) -> Result<(), BoardFault>
    ensures work { IsWork (if place.now.site == site then place_looks place.now else 0) work.old work.new }
    ensures known { result ≢ Err BoardFault.UnknownStation }
    ensures other { OnOk result (place.now.site ≢ site → boards.new.items ≡ boards.old.items) }
    ensures own { OnOk result (place.now.site ≡ site → (b : List ℕ × Board) × IsBoardAt place.now b × (boards.new.items ≡ boards.old.items ++ b ∷ [])) }
    ensures held { OnOk result
        (place.now.site ≡ site
        → (c : Cell) × IsAmong (map (λ g. C.cell (mutex_guard_value g)) held.now) c
        × ((b : List ℕ × Board) × IsBoardOfCell number place.now c b × (boards.new.items ≡ boards.old.items ++ b ∷ []))) }
{
    if place.site != site {
        return Ok(());
    }
    let Some(cell) = cell_at(held, boards.len()) else {
        return Err(BoardFault::Torn);
    };
    if !stands_at(cell, number, place) {
        return Err(BoardFault::Torn);
    }
    let Ok(board) = board_of(cell, alloc, work) else {
        return Err(BoardFault::OutOfMemory);
    };
    put_board(boards, place.name.copied(), board)
}

// The cell behind one of the held locks.
fn cell_at<'b, C: HasCell>(held: &'b [MutexGuard<'_, C>], number: usize) -> Option<&'b StationCell>
    ensures { IfSome result (λ c. IsAmong (map (λ g. C.cell (mutex_guard_value g)) held.now) c.now) }
{
    if number >= held.len() {
        return None;
    }
    let cell = held[number].cell();
    Some(cell)
}

// Adds a board to the end.
fn put_board(
    boards: &mut Vec<(Name, StationBoard)>,
    name: Name,
    board: StationBoard,
) -> Result<(), BoardFault>
    ensures known { result ≢ Err BoardFault.UnknownStation }
    ensures put { OnOk result (boards.new.items ≡ boards.old.items ++ (name, board) ∷ []) }
{
    match boards.push((name, board)) {
        Ok(()) => Ok(()),
        Err(_) => Err(BoardFault::OutOfMemory),
    }
}

// The note of the cells of a site's stations, and their boards as `site_boards_of` gives them. The locks stay held.
pub(crate) fn noted_boards_of<'a, C: HasCell, S: Notes<C, N>, N: Drop, R: Wait>(
    rt: &R,
    alloc: Global,
    places: &[StationPlace],
    held: Vec<MutexGuard<'a, C>>,
    site: u16,
    way: &S,
    work: &mut Work,
) -> Result<(Vec<MutexGuard<'a, C>>, Vec<(Name, StationBoard)>, N), BoardFault>
    ensures work { IsWork (site_looks places.now site) work.old work.new }
    ensures known { result ≢ Err BoardFault.UnknownStation }
    ensures boards { IfOk result (λ r. AreBoardsAt places.now site r.1.items) }
    ensures noted { IfOk result (λ r. AreNotedBoards (S.notes way.now r.2) places.now site r.1.items) }
{
    let Ok((held, noted)) = way.note(rt, alloc, held) else {
        return Err(BoardFault::OutOfMemory);
    };
    let boards = site_boards_of(alloc, places, held.as_slice(), site, work)?;
    Ok((held, boards, noted))
}

// The sums of the figures of boards, if they fit.
pub(crate) fn sum_of(boards: &[(Name, StationBoard)]) -> Option<Figures>
    ensures { IfSome result (λ f. f ≡ sum_of_figures (map (λ s. s.1.figures) boards.now)) }
{
    let [first, rest @ ..] = boards else {
        return Some(Figures::zero());
    };
    first.1.figures().checked_add(&sum_of(rest)?)
}
