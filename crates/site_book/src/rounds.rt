//! The steps on all totals, one after the other.
ghost use Rattle.std.specs.Prelude.{◌≡◌, ◌+◌, ◌*◌, ◌<◌, ◌^◌, [], ◌∷◌, ◌++◌, length};
ghost use Rattle.ledger_model.specs.Figures.{figure_list};
ghost use Rattle.site_book.{specs.Kept.Sits, specs.Rule.{shown, writing, looking}};

use crate::steps::{close_post, load_total, open_post, store_total};
use crate::table::{TableSeat, ThePost, Words};
use ledger_model::{FIGURES, Figures};
use std::marker::Brand;

// A viewer loads all totals.
pub(crate) fn gather(words: &Words, seat: &mut TableSeat) -> [u64; FIGURES]
    requires sits { Sits words.now.table_id seat.old.table_id }
    requires looks { seat.old.me ≡ (looking seat.old.me.0.log seat.old.me.0.version [], []) }
    ensures sits { Sits words.now.table_id seat.new.table_id }
    ensures read { seat.new.me ≡ (looking seat.old.me.0.log seat.old.me.0.version result, []) }
    ensures all { length result ≡ FIGURES }
{
    let mut read = [0; FIGURES];
    for i in 0..FIGURES {
        read[i] = load_total(words, seat, i);
    }
    read
}

// The book stores all totals of the post under way.
fn publish(words: &Words, seat: &mut TableSeat, totals: &[u64; FIGURES])
    requires sits { Sits words.now.table_id seat.old.table_id }
    requires writes { seat.old.me ≡ (writing seat.old.me.0.log [] seat.old.me.0.pending 0, []) }
    requires totals { totals.now ≡ shown (seat.old.me.0.log ++ seat.old.me.0.pending) }
    ensures sits { Sits words.now.table_id seat.new.table_id }
    ensures stored { seat.new.me ≡ (writing seat.old.me.0.log [] seat.old.me.0.pending FIGURES, []) }
{
    for i in 0..FIGURES {
        store_total(words, seat, i, totals[i]);
    }
}

// The book makes one post: a store for each figure, and two of the version.
pub(crate) fn announce(
    words: &Words,
    seat: &mut TableSeat,
    version: u64,
    post: &(u16, Figures),
    totals: &Figures,
)
    requires sits { Sits words.now.table_id seat.old.table_id }
    requires rests { seat.old.me ≡ (writing seat.old.me.0.log [] [] 0, []) }
    requires version { version ≡ 2 * length seat.old.me.0.log }
    requires more { version + 2 < 2 ^ 64 }
    requires totals { figure_list totals.now ≡ shown (seat.old.me.0.log ++ post.now ∷ []) }
    ensures sits { Sits words.now.table_id seat.new.table_id }
    ensures posted { seat.new.me ≡ (writing (seat.old.me.0.log ++ post.now ∷ []) [] [] 0, []) }
{
    open_post::<Brand>(words, seat, version, post);
    publish(words, seat, &totals.to_array());
    close_post(words, seat, version + 2);
}
