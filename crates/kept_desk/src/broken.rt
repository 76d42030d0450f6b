use script_lines::WriteStopped;

/// The journal takes no more lines: a write or a flush failed, at this line or at an earlier one.
#[derive(Clone, Copy)]
pub struct Broken;

impl From<WriteStopped> for Broken {
    fn from(_stopped: WriteStopped) -> Broken {
        Broken
    }
}
