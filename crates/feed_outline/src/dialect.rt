//! How a message is written.

ghost use Rattle.std.specs.Prelude.{◌≡◌, ◌∷◌, [], None, IfOk, if◌then◌else◌, option_map};
ghost use Rattle.std.specs.Str.{bytes_eq};
ghost use Rattle.feed_outline.specs.Dialect.{address_of, composite_of, counted, stranger_by, dialect_of, format_of, is_release, root_address};
ghost use Rattle.feed_outline.specs.private.Growing.{scopes_of};
ghost use Rattle.feed_outline.specs.Names.{is_called_among, is_called_apart, name_among};
ghost use Rattle.feed_outline.specs.Namespaces.{local_of, prefix_of, scope};
ghost use Rattle.feed_outline.specs.Views.{binding_views, vocabulary_view};

use crate::grower::Grower;
use crate::names::{
    Naming, Vocabulary, is_called_apart_in, is_called_in, name_in, naming_of_root, stranger,
    stranger_apart,
};
use crate::namespaces::{Binding, address_among, bindings_of, split_name, undeclared};
use crate::spaces::fill;
use feed_xml::{Attributes, Bytes};
use std::alloc::{AllocError, Global};
use std::marker::Model;

/// Why a document is no message that is read.
#[derive(Debug, Drop)]
pub enum Wrong {
    /// Its root, which has this name behind its prefix, is neither `ONIXMessage` nor `ONIXmessage`.
    Root(Bytes),
    /// Its release, where it has one, is neither 3.0 nor 3.1. Its root is in the namespace of this
    /// address, which is empty where it is in none.
    Release(Option<Bytes>, Bytes),
}

/// The kind of names and the namespace of a message. The prefix is that of its root, which most
/// elements have: what it stands for is not looked up, and not compared.
#[derive(Drop)]
pub struct Dialect {
    naming: Naming,
    prefix: Vec<u8>,
    address: Vec<u8>,
    bindings: Vec<Binding>,
}

impl Model for Dialect {
    ghost use Rattle.std.specs.Prelude.{◌≡◌};
    ghost use Rattle.feed_outline.specs.Dialect.{Dialect, root_address};
    ghost use Rattle.feed_outline.specs.Views.{binding_views};

    ghost Value = { Dialect };

    ghost view = { λ d. record {
      naming = d.naming;
      address = d.address.items;
      bindings = binding_views d.bindings.items;
    } };

    ghost invariant = { λ d. root_address d.prefix.items (binding_views d.bindings.items)
        ≡ d.address.items };
}

// Whether the release is one that is read.
fn is_release(release: &Option<Vec<u8>>) -> bool
    ensures { result ≡ is_release (option_map (λ r. r.items) release.now) }
{
    match release {
        None => false,
        Some(release) => {
            release.as_slice() == b"3.0".as_slice() || release.as_slice() == b"3.1".as_slice()
        }
    }
}

// What a prefix stands for by the declarations of the root.
fn root_address<'a>(prefix: &[u8], bindings: &'a [Binding]) -> &'a [u8]
    ensures { result.now ≡ root_address prefix.now (binding_views bindings.now) }
{
    match address_among(prefix, bindings) {
        None => undeclared(prefix),
        Some(address) => address,
    }
}

// That the release of a root in the namespace of this address is none that is read.
fn other_release(release: Option<Vec<u8>>, address: Vec<u8>) -> Wrong
    ensures { result ≡ Wrong.Release (option_map (λ r. r.items) release) address.items }
{
    let address = Bytes::from_vec(address);
    match release {
        None => Wrong::Release(None, address),
        Some(release) => Wrong::Release(Some(Bytes::from_vec(release)), address),
    }
}

// A stranger's name, where an element that does not count is called as one that does.
fn called(vocabulary: &Vocabulary, around: &Grower, name: &[u8]) -> Option<&'static [u8]>
    ensures { option_map (λ n. n.now) result
        ≡ stranger_by (is_called_among (vocabulary_view vocabulary.now)
        (composite_of (scopes_of around.now.opens)) (local_of name.now))
        (is_called_apart (vocabulary_view vocabulary.now)
        (composite_of (scopes_of around.now.opens)) (local_of name.now)) }
{
    let (_, local) = split_name(name);
    if is_called_in(vocabulary, around.composite(), local) {
        Some(stranger())
    } else if is_called_apart_in(vocabulary, around.composite(), local) {
        Some(stranger_apart())
    } else {
        None
    }
}

// How many bytes of a name or an address are kept.
const KEPT: usize = 200;

// The beginning of a name or an address.
fn beginning(text: &[u8]) -> &[u8] {
    text.get(..KEPT).unwrap_or(text)
}

impl Dialect {
    /// How a message is written whose root has this tag.
    pub(crate) fn of_root(
        alloc: Global,
        name: &[u8],
        attributes: &Attributes<'_>,
    ) -> Result<Result<Dialect, Wrong>, AllocError>
        ensures { IfOk result (λ found. found ≡ dialect_of name.now attributes.now) }
    {
        let (prefix, local) = split_name(name);
        let Some(naming) = naming_of_root(local) else {
            let name = Bytes::from_vec(Vec::from_slice(alloc, local)?);
            return Ok(Err(Wrong::Root(name)));
        };
        let release = attributes.normalized_value_of(alloc, b"release")?;
        let bindings = bindings_of(alloc, attributes)?;
        let address = Vec::from_slice(alloc, root_address(prefix, &bindings))?;
        if !is_release(&release) {
            return Ok(Err(other_release(release, address)));
        }
        let prefix = Vec::from_slice(alloc, prefix)?;
        Ok(Ok(Dialect {
            naming,
            prefix,
            address,
            bindings,
        }))
    }

    // What a prefix stands for in a tag with these declarations, below what a grower has open.
    fn address_of<'a>(
        &'a self,
        around: &'a Grower,
        prefix: &[u8],
        bindings: &'a [Binding],
    ) -> &'a [u8]
        ensures { result.now ≡ address_of self.now
            (scope [] (binding_views bindings.now) ∷ scopes_of around.now.opens) prefix.now }
    {
        if let Some(address) = address_among(prefix, bindings) {
            return address;
        }
        match around.address_within(prefix) {
            Some(address) => address,
            None => root_address(prefix, &self.bindings),
        }
    }

    // Whether a prefix stands for the root's namespace, in the same tag.
    fn is_own(&self, around: &Grower, prefix: &[u8], bindings: &[Binding]) -> bool
        ensures { result ≡ bytes_eq (address_of self.now (scope [] (binding_views bindings.now)
            ∷ scopes_of around.now.opens) prefix.now) self.now.address }
    {
        if let Some(address) = address_among(prefix, bindings) {
            return address == self.address.as_slice();
        }
        match around.address_within(prefix) {
            Some(address) => address == self.address.as_slice(),
            None => self.is_of_root(prefix),
        }
    }

    // Whether a prefix stands for the root's namespace by the declarations of the root.
    fn is_of_root(&self, prefix: &[u8]) -> bool
        ensures { result ≡ bytes_eq (root_address prefix.now self.now.bindings) self.now.address }
    {
        prefix == self.prefix.as_slice()
            || root_address(prefix, &self.bindings) == self.address.as_slice()
    }

    /// The reference name of an element with this name and these declarations below what a grower
    /// has open, where it counts by a vocabulary; a stranger's name, where it is called as one that
    /// counts in any namespace, kind of names and case of letters.
    pub(crate) fn counted(
        &self,
        vocabulary: &Vocabulary,
        around: &Grower,
        name: &[u8],
        bindings: &[Binding],
    ) -> Option<&'static [u8]>
        ensures { option_map (λ n. n.now) result ≡ counted (vocabulary_view vocabulary.now) self.now
            (scopes_of around.now.opens) name.now (binding_views bindings.now) }
    {
        match self.named(vocabulary, around, name, bindings) {
            Some(reference) => Some(reference),
            None => called(vocabulary, around, name),
        }
    }

    /// How a stranger of this name is called: that name, the address of its namespace and that of the
    /// root's, on lines of their own. Nothing is proved of it.
    pub(crate) fn called(
        &self,
        alloc: Global,
        around: &Grower,
        name: &[u8],
        bindings: &[Binding],
    ) -> Result<Vec<u8>, AllocError> {
        let (prefix, _) = split_name(name);
        let mut called = Vec::new(alloc);
        called.extend_from_slice(beginning(name))?;
        called.push(b'\n')?;
        called.extend_from_slice(beginning(self.address_of(around, prefix, bindings)))?;
        called.push(b'\n')?;
        called.extend_from_slice(beginning(self.address.as_slice()))?;
        Ok(called)
    }

    // The reference name of an element that counts.
    fn named(
        &self,
        vocabulary: &Vocabulary,
        around: &Grower,
        name: &[u8],
        bindings: &[Binding],
    ) -> Option<&'static [u8]>
        ensures { option_map (λ n. n.now) result
            ≡ (if bytes_eq (address_of self.now (scope [] (binding_views bindings.now)
            ∷ scopes_of around.now.opens) (prefix_of name.now)) self.now.address
            then name_among self.now.naming (vocabulary_view vocabulary.now)
            (composite_of (scopes_of around.now.opens)) (local_of name.now) else None) }
    {
        let (prefix, local) = split_name(name);
        if self.is_own(around, prefix, bindings) {
            name_in(self.naming, vocabulary, around.composite(), local)
        } else {
            None
        }
    }
}

/// The attribute `dateformat` of a tag, where it has a text.
pub(crate) fn format_of(
    alloc: Global,
    attributes: &Attributes<'_>,
) -> Result<Option<Vec<u8>>, AllocError>
    ensures { IfOk result (λ found. option_map (λ f. f.items) found ≡ format_of attributes.now) }
{
    match attributes.normalized_value_of(alloc, b"dateformat")? {
        None => Ok(None),
        Some(text) => fill(alloc, &text),
    }
}
