//! Why a request is refused before the desk is asked.

/// The method that a path takes.
#[derive(Clone, Copy, PartialEq, Eq)]
pub enum Method {
    /// The path is asked a question.
    Get,
    /// The path takes a message.
    Post,
}

/// Why a request is refused before the desk is asked. Of those that apply to a request the first
/// one is its refusal.
#[derive(Clone, Copy, PartialEq, Eq)]
pub enum Refusal {
    /// No head ends in the first 16,384 bytes, and behind line ends at their start these are one
    /// line without an end, or nothing.
    TargetTooLong,
    /// No head ends in the first 16,384 bytes, and these have a line but no empty one.
    HeadTooLarge,
    /// The input begins with no head, for any other reason.
    BadHead,
    /// A Transfer-Encoding field is there.
    TransferEncoding,
    /// The path is none of the desk's.
    NotFound,
    /// The path takes this method, and another was asked.
    MethodNotAllowed(Method),
    /// A POST has no Content-Length.
    LengthRequired,
    /// A POST has more than one Content-Length, or one that is not digits.
    BadLength,
    /// The body would have more than 4,194,304 bytes.
    TooLarge,
    /// The input ended before the body was whole.
    ShortBody,
    /// The body is not valid UTF-8.
    NotUtf8,
    /// The article is no ISBN-13, or a key of the query is missing, there twice or outside its
    /// grammar.
    BadQuery,
    /// The name is not one that a series may have.
    UnknownSeries,
}
