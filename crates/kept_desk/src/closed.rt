use crate::desk::KeptDesk;
use crate::moment::Moment;
use crate::opening::Opening;
use ledger_model::Listed;
use site_book::{Naming, Viewer};
use site_desk::{CloseFault, Closed, Pass};
use std::io::{BufWriter, Write};

/// A desk with a journal that was closed.
#[derive(Drop)]
pub struct KeptClosed<J: Naming, W: Write + Drop> {
    /// All ledgers, rows and totals.
    pub closed: Closed<J>,
    /// The journal's writer.
    pub writer: BufWriter<W>,
    /// A write or a flush failed.
    pub is_broken: bool,
}

/// A desk that was not closed, with the passes, viewers and moments that were handed in; all is as it was.
#[derive(Drop)]
pub struct KeptRefused<J: Naming, K: Opening, W: Write + Drop> {
    /// The desk.
    pub desk: KeptDesk<J, K, W>,
    /// The passes.
    pub passes: Listed<Pass>,
    /// The viewers.
    pub viewers: Listed<Viewer<J>>,
    /// The moments.
    pub moments: Vec<Moment<K>>,
    /// Why it was not closed.
    pub fault: CloseFault,
}
