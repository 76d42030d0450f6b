//! The single steps on a site's table. Each contract says what its seat knows then.
ghost use Rattle.std.specs.Prelude.{◌≡◌, ℕ, ◌+◌, ◌*◌, ◌%◌, ◌<◌, ◌≤◌, ◌^◌, false, List, [], ◌∷◌, ◌++◌, length, slice_index};
ghost use Rattle.site_book.{specs.Kept.Sits, specs.Prefix.IsPrefix, specs.Rule.{shown, writing, seeing, looking, HasSeen}};

use crate::table::{
    Checks, Closes, Grows, Keeps, Loads, Looks, Opens, Recalls, Shares, Stores, TableSeat, TakesIn,
    ThePost, Words,
};
use ledger_model::{FIGURES, Figures};

// The book makes the version odd: this post is under way.
pub(crate) fn open_post<Q: ThePost>(
    words: &Words,
    seat: &mut TableSeat,
    version: u64,
    post: &(u16, Figures),
)
    requires sits { Sits words.now.table_id seat.old.table_id }
    requires rests { seat.old.me ≡ (writing seat.old.me.0.log [] [] 0, []) }
    requires version { version ≡ 2 * length seat.old.me.0.log }
    requires more { version + 1 < 2 ^ 64 }
    requires post { post.now ≡ Q.post }
    ensures sits { Sits words.now.table_id seat.new.table_id }
    ensures opened { seat.new.me ≡ (writing seat.old.me.0.log [] (post.now ∷ []) 0, []) }
{
    words.store::<Opens<Q>>(seat, 0, version + 1);
}

// The book stores the next total of the post under way.
pub(crate) fn store_total(words: &Words, seat: &mut TableSeat, index: usize, total: u64)
    requires sits { Sits words.now.table_id seat.old.table_id }
    requires writes { seat.old.me ≡ (writing seat.old.me.0.log [] seat.old.me.0.pending index, []) }
    requires next { index < FIGURES }
    requires total { total ≡ slice_index (shown (seat.old.me.0.log ++ seat.old.me.0.pending)) index }
    ensures sits { Sits words.now.table_id seat.new.table_id }
    ensures stored { seat.new.me ≡ (writing seat.old.me.0.log [] seat.old.me.0.pending (index + 1), []) }
{
    words.store::<Stores>(seat, index + 1, total);
}

// The book makes the version even: the post under way is one of its posts.
pub(crate) fn close_post(words: &Words, seat: &mut TableSeat, version: u64)
    requires sits { Sits words.now.table_id seat.old.table_id }
    requires writes { seat.old.me ≡ (writing seat.old.me.0.log [] seat.old.me.0.pending FIGURES, []) }
    requires one { length seat.old.me.0.pending ≡ 1 }
    requires version { version ≡ 2 * length seat.old.me.0.log + 2 }
    ensures sits { Sits words.now.table_id seat.new.table_id }
    ensures closed { seat.new.me ≡ (writing (seat.old.me.0.log ++ seat.old.me.0.pending) [] [] 0, []) }
{
    words.store::<Closes>(seat, 0, version);
}

// A viewer loads the version.
pub(crate) fn look(words: &Words, seat: &mut TableSeat) -> u64
    requires sits { Sits words.now.table_id seat.old.table_id }
    requires reads { seat.old.me.0.writes ≡ false }
    ensures sits { Sits words.now.table_id seat.new.table_id }
    ensures looks { seat.new.me ≡ (looking seat.old.me.0.log result [], seat.old.me.1) }
    ensures old { IsPrefix seat.old.me.0.old seat.old.me.0.log }
{
    words.load::<Looks>(seat, 0)
}

// The book loads the version after a join, and so knows that the other's list begins its own.
pub(crate) fn recall(words: &Words, seat: &mut TableSeat)
    requires sits { Sits words.now.table_id seat.old.table_id }
    requires joined { seat.old.me ≡ (writing seat.old.me.0.log seat.old.me.0.old [] 0, []) }
    ensures sits { Sits words.now.table_id seat.new.table_id }
    ensures same { seat.new.me ≡ (writing seat.old.me.0.log [] [] 0, []) }
    ensures old { IsPrefix seat.old.me.0.old seat.old.me.0.log }
{
    words.load::<Recalls>(seat, 0);
}

// A viewer loads the next total.
pub(crate) fn load_total(words: &Words, seat: &mut TableSeat, index: usize) -> u64
    requires sits { Sits words.now.table_id seat.old.table_id }
    requires looks { seat.old.me ≡ (looking seat.old.me.0.log seat.old.me.0.version seat.old.me.0.read, []) }
    requires next { (length seat.old.me.0.read ≡ index) × (index < FIGURES) }
    ensures sits { Sits words.now.table_id seat.new.table_id }
    ensures loaded { seat.new.me ≡ (looking seat.old.me.0.log seat.old.me.0.version (seat.old.me.0.read ++ result ∷ []), []) }
{
    words.load::<Loads>(seat, index + 1)
}

// A viewer loads the version again, after all totals.
pub(crate) fn look_again(words: &Words, seat: &mut TableSeat) -> u64
    requires sits { Sits words.now.table_id seat.old.table_id }
    requires looks { seat.old.me ≡ (looking seat.old.me.0.log seat.old.me.0.version seat.old.me.0.read, []) }
    requires even { seat.old.me.0.version % 2 ≡ 0 }
    requires all { length seat.old.me.0.read ≡ FIGURES }
    ensures sits { Sits words.now.table_id seat.new.table_id }
    ensures sees { HasSeen result seat.old.me seat.new.me }
{
    words.load::<Checks>(seat, 0)
}

// Another seat that knows the same posts.
pub(crate) fn share(words: &Words, seat: &mut TableSeat) -> TableSeat
    requires { Sits words.now.table_id seat.old.table_id }
    ensures sits { Sits words.now.table_id seat.new.table_id × Sits words.now.table_id result.table_id }
    ensures same { seat.new.me ≡ seat.old.me }
    ensures known { result.me ≡ (seeing seat.old.me.0.log [], []) }
{
    words.split_seat::<Shares>(seat)
}

// A viewer joins a seat that knows no more posts.
pub(crate) fn keep(words: &Words, seat: &mut TableSeat, other: TableSeat)
    requires sits { Sits words.now.table_id seat.old.table_id × Sits words.now.table_id other.table_id }
    requires no_slots { other.me.1 ≡ [] }
    requires longer { length other.me.0.log ≤ length seat.old.me.0.log }
    ensures sits { Sits words.now.table_id seat.new.table_id }
    ensures kept { seat.new.me ≡ (seeing seat.old.me.0.log other.me.0.log, seat.old.me.1) }
{
    words.join_seat::<Keeps>(seat, other);
}

// A viewer joins a seat that knows at least as many posts.
pub(crate) fn grow(words: &Words, seat: &mut TableSeat, other: TableSeat)
    requires sits { Sits words.now.table_id seat.old.table_id × Sits words.now.table_id other.table_id }
    requires no_slots { other.me.1 ≡ [] }
    requires longer { length seat.old.me.0.log ≤ length other.me.0.log }
    ensures sits { Sits words.now.table_id seat.new.table_id }
    ensures grown { seat.new.me ≡ (seeing other.me.0.log seat.old.me.0.log, seat.old.me.1) }
{
    words.join_seat::<Grows>(seat, other);
}

// The book joins a viewer's seat.
pub(crate) fn absorb(words: &Words, seat: &mut TableSeat, other: TableSeat)
    requires sits { Sits words.now.table_id seat.old.table_id × Sits words.now.table_id other.table_id }
    requires no_slots { other.me.1 ≡ [] }
    requires rests { seat.old.me ≡ (writing seat.old.me.0.log [] [] 0, []) }
    ensures sits { Sits words.now.table_id seat.new.table_id }
    ensures joined { seat.new.me ≡ (writing seat.old.me.0.log other.me.0.log [] 0, []) }
{
    words.join_seat::<TakesIn>(seat, other);
}
