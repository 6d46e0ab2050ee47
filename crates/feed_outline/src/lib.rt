//! The Headers and Products of an ONIX for Books message in XML, each as an outline: lines of
//! how deep an element is, its name and its text, in order.
#![tactic(auto)]

pub mod composites;
pub mod dialect;
mod grower;
pub mod laws;
pub mod line;
pub mod message_reading;
pub mod names;
pub mod namespaces;
pub mod outliner;
pub mod outlines;
pub mod refusal_hints;
mod spaces;

pub use composites::{Elements, Node, first_called, has_stranger, text_in};
pub use dialect::{Dialect, Wrong};
pub use laws::outlines_tell;
pub use line::Line;
pub use message_reading::{Fault, Stopped, read_message};
pub use names::{Vocabulary, Word};
pub use outliner::{Outliner, Taker};
pub use outlines::{is_outline, outlined};
pub use refusal_hints::RefusalHints;
