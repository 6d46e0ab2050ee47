//! Numbers of copies.

use crate::positive::Positive;

/// A number of copies: 1 to 999,999, written in at most 6 digits.
pub type Quantity = Positive<6, 1_000_000>;
