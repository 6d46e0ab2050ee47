//! What stands at a number, and its text.

ghost use Rattle.std.specs.Prelude.{◌≡◌, IfOk, codes};
ghost use Rattle.std.specs.Str.{bytes_eq};
ghost use Rattle.desk_rows.specs.Texts.{IsReadable, standing_text};

use onix_message::StoreFault;
use onix_message::contents::{ContentsFault, read_contents};
use series_rules::requests::Standing;
use std::alloc::Global;

/// Whether a text is that of a waiver.
pub fn is_waived(text: &str) -> bool
    ensures { result ≡ bytes_eq text.now (codes "waived") }
{
    text == "waived"
}

/// What has that text. `Unusable` where it is the text of nothing that can stand.
pub fn read_standing(alloc: Global, text: &str) -> Result<Standing, StoreFault>
    ensures { IfOk result (λ h. IsReadable h × (standing_text h ≡ text.now)) }
{
    if is_waived(text) {
        return Ok(Standing::Waived);
    }
    match read_contents(alloc, text) {
        Ok(contents) => Ok(Standing::Message(contents)),
        Err(ContentsFault::Memory) => Err(StoreFault::Memory),
        Err(ContentsFault::NotContents) => Err(StoreFault::Unusable),
    }
}
