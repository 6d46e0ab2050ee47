//! Desks whose content can be listed.

ghost use Rattle.series_rules.specs.Listing.{agreements_by_name, text_after};
ghost use Rattle.series_rules.specs.Views.{AsksOnly};

use crate::desk::Desk;
use onix_records::{Agreement, StoreFault};
use onix_terms::items::Items;
use onix_terms::number::Number;
use onix_terms::series_name::SeriesName;
use onix_terms::text::Text;

/// A desk that tells what it stands for. Both calls are questions.
pub trait ListedDesk: Desk {
    /// All agreements that stand, in the order of the bytes of their names.
    fn agreements(&mut self) -> Result<Items<Agreement>, StoreFault>
        ensures { AsksOnly agreements_by_name (Self.seen self.old) (Self.seen self.new) result };

    /// The text of what stands at a number of a series: that of the contents of a message, or
    /// `waived`. `None` where nothing stands there.
    fn text_at(&mut self, series: &SeriesName, number: Number) -> Result<Option<Text>, StoreFault>
        ensures { AsksOnly (text_after series.now number) (Self.seen self.old) (Self.seen self.new)
            result };
}
