ghost use Rattle.std.specs.Prelude.{◌≡◌, ◌≤◌, length};

/// The error codes that this product puts into a CALLERROR (OCPP 2.0.1 Part 4); which fault takes which
/// code is this product's profile.
#[derive(Clone, Copy)]
pub enum ErrorCode {
    /// The payload is no object, or is not of the action's form.
    FormatViolation,
    /// A member is missing, or there are too many of it.
    OccurrenceConstraintViolation,
    /// A member is of another JSON kind.
    TypeConstraintViolation,
    /// A member's value is out of its range.
    PropertyConstraintViolation,
    /// The message contradicts a stored event.
    GenericError,
    /// The server had no room or no memory for the message.
    InternalError,
    /// The text is no frame.
    RpcFrameworkError,
    /// The frame's type is not supported.
    MessageTypeNotSupported,
    /// The action is not supported.
    NotImplemented,
}

impl ErrorCode {
    ghost use Rattle.ocppj_frame.specs.ErrorCode.{code_name};

    /// The code as a CALLERROR has it.
    pub fn name(self) -> &'static str
        ensures name { result.now ≡ code_name self }
        ensures short { length result.now ≤ 29 }
    {
        match self {
            ErrorCode::FormatViolation => "FormatViolation",
            ErrorCode::OccurrenceConstraintViolation => "OccurrenceConstraintViolation",
            ErrorCode::TypeConstraintViolation => "TypeConstraintViolation",
            ErrorCode::PropertyConstraintViolation => "PropertyConstraintViolation",
            ErrorCode::GenericError => "GenericError",
            ErrorCode::InternalError => "InternalError",
            ErrorCode::RpcFrameworkError => "RpcFrameworkError",
            ErrorCode::MessageTypeNotSupported => "MessageTypeNotSupported",
            ErrorCode::NotImplemented => "NotImplemented",
        }
    }
}
