//! Namespaces of elements.

ghost use Rattle.std.specs.Prelude.{◌≡◌, ◌∷◌, ◌++◌, [], IfOk, OnOk, option_map};
ghost use Rattle.feed_outline.specs.Namespaces.{colon, prefix_of, local_of, declared_prefix, bindings_of, address_among, undeclared};
ghost use Rattle.feed_outline.specs.Views.{binding_views};
ghost use Rattle.feed_xml.specs.AttributeView.{attribute_view};

use feed_xml::{Attribute, Attributes, push_normalized};
use std::alloc::{AllocError, Global};

/// A prefix and the address that it is declared to stand for.
#[derive(Drop)]
pub struct Binding {
    pub prefix: Vec<u8>,
    pub address: Vec<u8>,
}

// Where a name has its first colon.
fn colon(name: &[u8]) -> Option<usize>
    ensures { result ≡ colon name.now }
{
    name.iter().position(|b| *b == b':')
}

/// The prefix of a name and its local name.
pub(crate) fn split_name(name: &[u8]) -> (&[u8], &[u8])
    ensures prefix { result.0.now ≡ prefix_of name.now }
    ensures local { result.1.now ≡ local_of name.now }
{
    match colon(name) {
        None => (b"", name),
        Some(at) => (&name[..at], &name[at + 1..]),
    }
}

// The prefix that an attribute of this name declares.
fn declared_prefix(name: &[u8]) -> Option<&[u8]>
    ensures { option_map (λ p. p.now) result ≡ declared_prefix name.now }
{
    if name == b"xmlns".as_slice() {
        return Some(b"");
    }
    let (prefix, local) = split_name(name);
    if prefix == b"xmlns".as_slice() {
        Some(local)
    } else {
        None
    }
}

// Adds what an attribute declares, if anything.
fn push_binding(
    alloc: Global,
    bindings: &mut Vec<Binding>,
    attribute: &Attribute<'_>,
) -> Result<(), AllocError>
    ensures { OnOk result (binding_views bindings.new.items
        ≡ binding_views bindings.old.items ++ bindings_of (attribute_view attribute.now ∷ [])) }
{
    let Some(prefix) = declared_prefix(attribute.name) else {
        return Ok(());
    };
    let mut address = Vec::new(alloc);
    push_normalized(&mut address, attribute.value)?;
    let prefix = Vec::from_slice(alloc, prefix)?;
    bindings.push(Binding { prefix, address })?;
    Ok(())
}

/// The declarations of a tag.
pub(crate) fn bindings_of(
    alloc: Global,
    attributes: &Attributes<'_>,
) -> Result<Vec<Binding>, AllocError>
    ensures { IfOk result (λ bindings. binding_views bindings.items
        ≡ bindings_of attributes.now) }
{
    let mut bindings = Vec::new(alloc);
    let mut next = attributes.split_first();
    while let Some((first, rest)) = next {
        push_binding(alloc, &mut bindings, &first)?;
        next = rest.split_first();
    }
    Ok(bindings)
}

/// What a prefix stands for by the declarations of one tag.
pub(crate) fn address_among<'a>(prefix: &[u8], bindings: &'a [Binding]) -> Option<&'a [u8]>
    ensures { option_map (λ a. a.now) result
        ≡ address_among prefix.now (binding_views bindings.now) }
{
    let mut rest = bindings;
    while let [first, tail @ ..] = rest {
        if first.prefix.as_slice() == prefix {
            return Some(first.address.as_slice());
        }
        rest = tail;
    }
    None
}

/// What a prefix stands for that nobody declares: `xml` has its address, and others have none.
pub(crate) fn undeclared(prefix: &[u8]) -> &'static [u8]
    ensures { result.now ≡ undeclared prefix.now }
{
    if prefix == b"xml".as_slice() {
        b"http://www.w3.org/XML/1998/namespace"
    } else {
        b""
    }
}
