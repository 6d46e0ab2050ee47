//! Laws of the definitions.

ghost use Rattle.desk_http.specs.Laws.{AsksOnce, AsksSomething, WantedIsBounded};

/// An input asks for one thing: a request, or the refusal that comes first.
pub fn asks_once()
    ensures { AsksOnce }
{}

/// Each input asks for something: one that begins with no head is refused, and each head is that of
/// a request or is refused.
pub fn asks_something()
    ensures { AsksSomething }
{}

/// Of no input are more than 16,384 bytes of a head and 4,194,304 of a body looked at.
pub fn wanted_is_bounded()
    ensures { WantedIsBounded }
{}
