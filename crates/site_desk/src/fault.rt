/// Why a plan is not opened. The first fault that applies is reported.
#[derive(Clone, Copy, Debug)]
pub enum DeskFault {
    /// The stations may keep more than 1,048,576 readings in all, a site has more than 64 viewers, a
    /// station names a site that is not there, or two sites have the same name.
    PlanLimit,
    /// Two stations have the same name.
    StationTwice,
    /// There is no memory for it.
    OutOfMemory,
}

/// Why no pass is given out.
#[derive(Clone, Copy, Debug)]
pub enum EnlistFault {
    /// No station of the desk has this name.
    UnknownStation,
    /// The station gave out 65,536 passes, or the cell behind its lock is another station's, which no
    /// run of these calls meets.
    TooManyPasses,
}

/// Why there is no board.
#[derive(Clone, Copy, Debug)]
pub enum BoardFault {
    /// No station of the desk has this name.
    UnknownStation,
    /// The cell behind the station's lock is another station's, or a site's cells and book don't
    /// fit together, which no run of these calls meets; or the desk doesn't have the site.
    Torn,
    /// There is no memory for it.
    OutOfMemory,
}

/// Why a desk is not closed. The first fault that applies is reported.
#[derive(Clone, Copy, Debug)]
pub enum CloseFault {
    /// A pass that was given out is missing.
    PassMissing,
    /// A viewer of the desk is missing.
    ViewerMissing,
    /// The values behind the locks don't fit together: a count, a place, a row or a total differs.
    Torn,
}

/// A station gave out as many passes as it may: 65,536.
#[derive(Clone, Copy)]
pub struct TooManyPasses;
