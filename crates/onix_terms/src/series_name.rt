//! Names of series.

ghost use Rattle.std.proofs.Common.{refl};
ghost use Rattle.std.specs.Prelude.{◌≡◌, ◌↔◌, IsTrue, Some};
ghost use Rattle.std.specs.Ordering.{nat_cmp};
ghost use Rattle.std.specs.declared.cmp.Ordering.TheVariants.{Equal, Less};
ghost use Rattle.std.specs.Cmp;
ghost use Rattle.std.specs.Cmp.Lexicographic.{slice_cmp, nat_list_cmp_total, nat_list_eq_equiv, texts_po, texts_ties};
ghost use Rattle.std.specs.List.{list_all};
ghost use Rattle.std.specs.Str.{bytes_eq};
ghost use Rattle.std.specs.Result.{result_ok};
ghost use Rattle.onix_terms.specs.SeriesName.{is_name_byte, series_name_of};

use crate::NotATerm;
use crate::ascii::text_of;
use std::cmp::Ordering;
use std::marker::Model;
use std::str::FromStr;

/// The name of a series: 1 to 32 characters of `a` to `z`, `0` to `9` and `-`, which contracts see
/// as its bytes. It is stored inline, without an allocation.
#[derive(Clone, Copy, Debug)]
pub struct SeriesName {
    bytes: [u8; 32],
    len: usize,
}

impl Model for SeriesName {
    ghost use Rattle.std.specs.Prelude.{ℕ, List, take, ◌≡◌, IsTrue, length};
    ghost use Rattle.std.proofs.Common.{refl};
    ghost use Rattle.onix_terms.specs.SeriesName.{is_series_name, padded};

    ghost Value = { List ℕ };

    ghost view = { λ n. take n.len n.bytes };

    ghost invariant = { λ n. (padded (take n.len n.bytes) ≡ n.bytes)
        × (length (take n.len n.bytes) ≡ n.len) × IsTrue (is_series_name (take n.len n.bytes)) };

    ghost inverse = { λ name. record { bytes = padded name; len = length name } };

    ghost inverse_ok = { λ a h. rw (h.0, h.1) refl };
}

impl PartialEq for SeriesName {
    ghost eq = { bytes_eq };

    ghost laws = { Cmp.partial_equiv_from_equiv nat_list_eq_equiv };

    fn eq(&self, other: &SeriesName) -> bool {
        self.as_bytes() == other.as_bytes()
    }
}

impl Eq for SeriesName {
    ghost laws = { nat_list_eq_equiv };
}

impl PartialOrd for SeriesName {
    ghost partial_cmp = { λ x y. Some (slice_cmp nat_cmp x y) };

    ghost laws = { texts_po };

    fn partial_cmp(&self, other: &SeriesName) -> Option<Ordering> {
        Some(self.cmp(other))
    }
}

impl Ord for SeriesName {
    ghost cmp = { slice_cmp nat_cmp };

    ghost total = { nat_list_cmp_total };

    ghost matches_partial_cmp = { λ x y. refl };

    ghost matches_eq = { texts_ties };

    fn cmp(&self, other: &SeriesName) -> Ordering {
        self.as_bytes().cmp(other.as_bytes())
    }
}

impl SeriesName {
    /// The name that a text is, or `None` where it is none.
    pub fn read(text: &str) -> Option<SeriesName>
        ensures { result ≡ series_name_of text.now }
    {
        let given = text.as_bytes();
        if given.is_empty() || given.len() > 32 || !are_name_bytes(given) {
            return None;
        }
        let mut bytes = [0; 32];
        bytes[..given.len()].copy_from_slice(given);
        Some(SeriesName {
            bytes,
            len: given.len(),
        })
    }

    /// The name.
    pub fn as_str(&self) -> &str
        ensures text { result.now ≡ self.now }
        ensures read { series_name_of self.now ≡ Some self.now }
    {
        text_of(&self.bytes[..self.len])
    }

    fn as_bytes(&self) -> &[u8]
        ensures { result.now ≡ self.now }
    {
        &self.bytes[..self.len]
    }

    /// The order of the bytes.
    pub fn compare(&self, other: &SeriesName) -> Ordering
        ensures order { result ≡ slice_cmp nat_cmp self.now other.now }
        ensures equal { result ≡ Equal → self.now ≡ other.now }
    {
        self.cmp(other)
    }

    /// Whether this name comes before the other in the order of the bytes.
    pub fn is_before(&self, other: &SeriesName) -> bool
        ensures { IsTrue result ↔ (slice_cmp nat_cmp self.now other.now ≡ Less) }
    {
        self < other
    }
}

impl FromStr for SeriesName {
    type Err = NotATerm;

    ghost from_str_gives = { λ text given. result_ok given ≡ series_name_of text };

    fn from_str(text: &str) -> Result<SeriesName, NotATerm> {
        SeriesName::read(text).ok_or(NotATerm)
    }
}

// Whether each byte may stand in a name.
fn are_name_bytes(bytes: &[u8]) -> bool
    ensures { result ≡ list_all is_name_byte bytes.now }
{
    bytes.iter().all(|b| b.is_ascii_lowercase() || b.is_ascii_digit() || *b == b'-')
}
