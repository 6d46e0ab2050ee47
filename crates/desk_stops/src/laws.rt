//! Laws over runs with stops.

ghost use Rattle.std.specs.Prelude.{List};
ghost use Rattle.desk_stops.specs.Connections.{HaveNoTable, RowsHaveOneContent};
ghost use Rattle.desk_stops.specs.Effective.{AnsweredAreWhole, AnsweredAsIfNeverStopped, WhatIsLeftIsEffective, WhatIsOpenedIsEffective};
ghost use Rattle.price_rules.specs.declared.precedence.Rule.{Rule};

use desk_rows::laws::one_standing_text;
use desk_store::DeskStore;
use series_rules::desk::Desk;
use sqlite::Alter;

/// The law over runs with stops. For every list of events in which each exit of a call, each stop
/// and each opening keeps the clauses of the desk's methods and openings: a desk that was opened
/// last stands for an effective list, and a stop then leaves the rows of that list and nothing
/// else. An effective list has what was there at first and each answered request, whole and in
/// order, and each answer is that of a desk that has seen what the list has before its request; of
/// the requests that were faulted or stopped inside since the last change it has at most one for
/// each stop, whole.
pub fn what_is_opened_is_effective<S: Alter>()
    ensures { (rules : List Rule)
        → WhatIsOpenedIsEffective ⟦<DeskStore<S> as Desk>⟧.seen rules HaveNoTable }
{}

/// After every such list of events that ends without a desk, each database that may be there is
/// that of an effective list.
pub fn what_is_left_is_effective<S: Alter>()
    ensures { (rules : List Rule)
        → WhatIsLeftIsEffective ⟦<DeskStore<S> as Desk>⟧.seen rules HaveNoTable }
{}

/// After every such list of events that ends with an open desk, the desk stands for an effective
/// list, and a message that comes again, or any other request, gets the answer of a desk that was
/// never stopped, after that list.
pub fn answered_as_if_never_stopped<S: Alter>()
    ensures { (rules : List Rule)
        → AnsweredAsIfNeverStopped ⟦<DeskStore<S> as Desk>⟧.seen rules HaveNoTable }
{}

/// An effective list is what was there at first and all that was answered, in order, with at most
/// one further request for each stop that found a desk open.
pub fn answered_are_whole()
    ensures { AnsweredAreWhole }
{}

/// Whatever list the rows of a desk are found to be those of, its content is one: the same agreement
/// under each name, and the same at each number of each series.
pub fn rows_have_one_content()
    ensures { RowsHaveOneContent }
{
    one_standing_text();
}
