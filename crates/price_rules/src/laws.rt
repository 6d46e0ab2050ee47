//! Laws about the definitions, each the contract of a function with an empty body.

ghost use Rattle.price_rules.specs.Laws.{BadRuleIsFirst, CalendarIsExact, CalendarIsUnique, ChoiceIsExact, CurrentIsExact};

/// What is computed as the current price is the one answer that its definition in words allows.
pub fn current_is_exact()
    ensures { CurrentIsExact }
{}

/// Two lists of spans that are the calendar of the same offer for the same question are equal.
pub fn calendar_is_unique()
    ensures { CalendarIsUnique }
{}

/// What is computed as the calendar is the one list that its definition in words allows.
pub fn calendar_is_exact()
    ensures { CalendarIsExact }
{}

/// What is computed as the choice is the one answer that its definition in words allows.
pub fn choice_is_exact()
    ensures { ChoiceIsExact }
{}

/// The number of a bad rule that reading a precedence table names is that of the first one.
pub fn bad_rule_is_first()
    ensures { BadRuleIsFirst }
{}
