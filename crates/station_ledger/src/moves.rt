//! The changes of an accepted command to the events and their sums.
ghost use Rattle.std.specs.Prelude.{◌≡◌};
ghost use Rattle.event_chain.{specs.Chains.stored, specs.Sides.AreSides};
ghost use Rattle.ledger_model.{specs.ByDirection.in_direction, specs.declared.reading.Direction.Direction, specs.declared.command.Command.TheVariants.{Deliver, Erase, Restore, Void}};
ghost use Rattle.station_ledger.{specs.Kept.{CanDo, IsDone}, specs.Quarters.IsWork, specs.Spent.most_spent, specs.Sums.order_in};

use crate::pairs::Way;
use crate::sums::{Sums, turn_event};
use energy_flow::Work;
use event_chain::{Around, Carries, Chains, Sides};
use key_index::KeyPlace;
use ledger_model::{ByDirection, Command, Direction, Event, Key};

// The readings of a direction on either side of the place of a key, if its event has any.
#[inline(always)]
fn sides(chains: &Chains, key: &Key, direction: Direction, has: Carries) -> Sides
    ensures { AreSides direction (in_direction direction has) key.now (stored chains.now) result }
{
    if !has.get(direction) {
        return Sides {
            before: None,
            behind: None,
        };
    }
    let (before, behind) = chains.neighbours(key, direction);
    Sides { before, behind }
}

// The readings on either side of the place of a key, in each direction in which its event has any.
fn around(chains: &Chains, key: &Key, has: Carries) -> Around
    ensures { (d : Direction) → AreSides d (in_direction d has) key.now (stored chains.now) (in_direction d result) }
{
    ByDirection {
        import: sides(chains, key, Direction::Import, has),
        export: sides(chains, key, Direction::Export, has),
    }
}

// Puts in a live event under a new key at the key's place. There is room for it.
fn deliver(
    chains: &mut Chains,
    sums: &mut Sums,
    place: KeyPlace,
    key: &Key,
    event: &Event,
    work: &mut Work,
)
    requires { CanDo (Deliver key.now event.now) chains.old sums.old }
    ensures done { IsDone (Deliver key.now event.now) chains.old chains.new sums.old sums.new }
    ensures work { IsWork (most_spent (order_in sums.old) chains.old.events (Deliver key.now event.now)) work.old work.new }
{
    let around = chains.admit(key, event, place);
    sums.kept.look_near(chains.near());
    turn_event(chains, sums, Way::Coming, key, Some(event), &around, work);
}

// Makes a voided event live again.
pub(crate) fn restore(chains: &mut Chains, sums: &mut Sums, key: &Key, work: &mut Work)
    requires { CanDo (Restore key.now) chains.old sums.old }
    ensures done { IsDone (Restore key.now) chains.old chains.new sums.old sums.new }
    ensures work { IsWork (most_spent (order_in sums.old) chains.old.events (Restore key.now)) work.old work.new }
{
    let has = chains.carries(key);
    let place = around(chains, key, has);
    chains.relink(key);
    turn_event(chains, sums, Way::Coming, key, None, &place, work);
    sums.figures.voided -= 1;
}

// Voids a live event.
pub(crate) fn void(chains: &mut Chains, sums: &mut Sums, key: &Key, work: &mut Work)
    requires { CanDo (Void key.now) chains.old sums.old }
    ensures done { IsDone (Void key.now) chains.old chains.new sums.old sums.new }
    ensures work { IsWork (most_spent (order_in sums.old) chains.old.events (Void key.now)) work.old work.new }
{
    let has = chains.carries(key);
    let place = around(chains, key, has);
    chains.unlink(key);
    turn_event(chains, sums, Way::Going, key, None, &place, work);
    sums.figures.voided += 1;
}

// Takes out a voided event.
pub(crate) fn erase(chains: &mut Chains, sums: &mut Sums, key: &Key)
    requires { CanDo (Erase key.now) chains.old sums.old }
    ensures { IsDone (Erase key.now) chains.old chains.new sums.old sums.new }
{
    chains.remove(key);
    sums.figures.voided -= 1;
}

// Searches for a key, if its place is not known.
fn seek(chains: &mut Chains, sums: &mut Sums, place: KeyPlace, key: &Key)
    ensures chains { chains.new ≡ chains.old }
    ensures sums { sums.new ≡ sums.old }
{
    if place == KeyPlace::UNKNOWN {
        chains.seek(key);
        sums.kept.look_near(chains.near());
    }
}

// Carries out a command that may be accepted.
fn carry(chains: &mut Chains, sums: &mut Sums, place: KeyPlace, command: &Command, work: &mut Work)
    requires { CanDo command.now chains.old sums.old }
    ensures done { IsDone command.now chains.old chains.new sums.old sums.new }
    ensures work { IsWork (most_spent (order_in sums.old) chains.old.events command.now) work.old work.new }
{
    match command {
        Command::Deliver(key, event) => deliver(chains, sums, place, key, event, work),
        Command::Void(key) => void(chains, sums, key, work),
        Command::Restore(key) => restore(chains, sums, key, work),
        Command::Erase(key) => erase(chains, sums, key),
    }
}

// Carries out a command at the place of its key, if that is known.
pub(crate) fn carry_out(
    chains: &mut Chains,
    sums: &mut Sums,
    place: KeyPlace,
    command: &Command,
    work: &mut Work,
)
    requires { CanDo command.now chains.old sums.old }
    ensures done { IsDone command.now chains.old chains.new sums.old sums.new }
    ensures work { IsWork (most_spent (order_in sums.old) chains.old.events command.now) work.old work.new }
{
    seek(chains, sums, place, command.key());
    carry(chains, sums, place, command, work);
}
