//! Message numbers.

use crate::positive::Positive;

/// A MessageNumber: 1 to 999,999,999, written in at most 9 digits.
pub type Number = Positive<9, 1_000_000_000>;
