//! The number of an article.

use crate::code::Code;

/// The 13 digits of an ISBN-13 or a GTIN-13. The check digit is not looked at.
pub type Isbn13 = Code<b'0', b'9', 13>;
