//! The tokens of an XML document, read one after the other from any stream.
#![tactic(auto)]

pub mod attributes;
pub mod bytes;
mod characters;
mod classes;
pub mod document_reading;
mod encoding_names;
mod encodings;
mod entities;
pub mod fault;
mod html_names;
mod instructions;
pub mod laws;
mod names;
mod nesting;
mod numbers;
pub mod pieces;
mod place;
pub mod position;
pub mod references;
mod scan;
pub mod sections;
pub mod sink;
mod skim;
mod stop;
pub mod tags;
mod texts;
pub mod values;

pub use attributes::{Attribute, Attributes};
pub use bytes::Bytes;
pub use document_reading::{HEAD, read_document};
pub use fault::Fault;
pub use laws::{one_document, one_tree, tokens_are_read};
pub use pieces::Piece;
pub use position::Position;
pub use references::push_reference;
pub use sections::{bracket_text, push_section_byte};
pub use sink::Sink;
pub use tags::Token;
pub use values::push_normalized;
