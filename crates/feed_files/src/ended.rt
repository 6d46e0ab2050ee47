//! How a FILE ends.

ghost use Rattle.std.specs.Prelude.{◌≡◌, ◌≤◌};
ghost use Rattle.feed_files.specs.Ends.{IsOfCounted, is_converted, status_of};

use feed_conversion::Counted;

/// How a FILE ended.
#[derive(Clone, Copy, Debug, PartialEq, Eq)]
pub enum Ended {
    /// It was converted.
    Done,
    /// It was converted, though some of its products are wrong, or none has a SupplyDetail of the
    /// supplier that is named.
    LeftOut,
    /// It was refused.
    Refused,
    /// It was refused since it is packed by its name.
    Packed,
    /// A file could not be read or written, or memory ran out.
    Fault,
}

impl Ended {
    /// The status of the FILE.
    pub fn status(self) -> u8
        ensures is { result ≡ status_of self }
        ensures most { result ≤ 3 }
    {
        match self {
            Ended::Done => 0,
            Ended::LeftOut | Ended::Refused | Ended::Packed => 1,
            Ended::Fault => 3,
        }
    }

    /// Whether the FILE was converted.
    pub fn is_converted(self) -> bool
        ensures { result ≡ is_converted self }
    {
        matches!(self, Ended::Done | Ended::LeftOut)
    }

    /// That of a FILE that was converted, of whose products this is told.
    pub fn of_converted(told: Counted) -> Ended
        ensures { IsOfCounted told result }
    {
        if told.is_flawed() {
            Ended::LeftOut
        } else {
            Ended::Done
        }
    }
}
