//! Laws that tie the runs to what the desk promises: each clause is what a run asks for.

ghost use Rattle.std.specs.Prelude.{List};
ghost use Rattle.desk_stops.specs.Clauses.{CallsAreSteps};
ghost use Rattle.desk_stops.specs.Files.{FileOpeningsAreEvents, FilesAreLeft};
ghost use Rattle.price_rules.specs.declared.precedence.Rule.{Rule};

use series_rules::desk::Desk;
use sqlite_disk::Disk;

/// What `agree`, `deliver`, `waive` and each question promise makes each way out of them one of a
/// request, as `answer` asks it: a step.
pub fn calls_are_steps<D: Desk, X>()
    ensures { (rules : List Rule) → CallsAreSteps X D.seen rules }
{}

/// At files that hold a database, or whose database has no byte yet, the clauses of an opening of
/// them make it one of a run: with a desk `stands` and `alone`, with a fault `left`.
pub fn file_openings_are_events<D: Disk>()
    ensures { FileOpeningsAreEvents D.Disk }
{}

/// The files that a stop may leave, and those that a closing gives back, hold a database at which
/// the next opening is one of a run. A closing that fails, or that a stop comes into, is a stop.
pub fn files_are_left<D: Disk>()
    ensures { FilesAreLeft D.Disk }
{}
