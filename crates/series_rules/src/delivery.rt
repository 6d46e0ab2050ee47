//! The records of a delivery, read by what its answer computes of them.

ghost use Rattle.std.specs.Prelude.{◌≡◌, IfErr, IfOk, Some};
ghost use Rattle.onix_records.specs.Message.{message_of};
ghost use Rattle.series_rules.specs.MessageFaults.{IsComputedFault};

use csv_records::records::Records;
use onix_message::contents::Contents;
use onix_message::laws::{bad_rows, messages};
use onix_message::message::{MessageFault, read_message};
use onix_message::parts::Header;
use std::alloc::Global;

/// Reads a delivery: the message that its answer is by, or the row that its answer names.
pub fn read_delivery(
    alloc: Global,
    records: &Records<'_>,
) -> Result<(Header, Contents), MessageFault>
    ensures message { IfOk result (λ m. message_of records.now ≡ Some (m.0, m.1)) }
    ensures fault { IfErr result (λ e. IsComputedFault records.now e) }
{
    messages();
    bad_rows();
    read_message(alloc, records)
}
