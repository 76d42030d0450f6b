ghost use Rattle.std.{specs.Prelude.{◌≡◌, ◌≤◌, true, length}, specs.List.list_all};
ghost use Rattle.ocppj_frame.specs.Reply.{is_letter};

use crate::error_code::ErrorCode;

// Why a text is no call that the reader takes.
#[derive(Clone, Copy)]
pub(crate) enum FrameFault {
    TextTooLong,
    NotJson,
    NotACall,
    MessageType,
    UnknownAction,
    Format,
}

impl FrameFault {
    ghost use Rattle.ocppj_frame.specs.FrameFault.{fault_code, fault_name};

    // The code of the CALLERROR that reports it.
    pub(crate) fn code(self) -> ErrorCode
        ensures { result ≡ fault_code self }
    {
        match self {
            FrameFault::TextTooLong | FrameFault::NotJson | FrameFault::NotACall =>
                ErrorCode::RpcFrameworkError,
            FrameFault::MessageType => ErrorCode::MessageTypeNotSupported,
            FrameFault::UnknownAction => ErrorCode::NotImplemented,
            FrameFault::Format => ErrorCode::FormatViolation,
        }
    }

    // Its name, which is the CALLERROR's description.
    pub(crate) fn name(self) -> &'static str
        ensures name { result.now ≡ fault_name self }
        ensures short { length result.now ≤ 32 }
        ensures letters { list_all is_letter result.now ≡ true }
    {
        match self {
            FrameFault::TextTooLong => "TextTooLong",
            FrameFault::NotJson => "NotJson",
            FrameFault::NotACall => "NotACall",
            FrameFault::MessageType => "MessageType",
            FrameFault::UnknownAction => "UnknownAction",
            FrameFault::Format => "Format",
        }
    }
}
