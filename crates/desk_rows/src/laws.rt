//! What the texts of the tables obey, as a law without code.

ghost use Rattle.desk_rows.specs.Texts.{TextsTellApart};

use onix_message::laws::one_contents_text;

/// What stands at a number is told by its text. So the text of a waiver is that of no contents.
pub fn one_standing_text()
    ensures { TextsTellApart }
{
    one_contents_text();
}
