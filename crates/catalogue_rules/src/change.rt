//! What a product asks for, and how it is counted.

ghost use Rattle.std.specs.Prelude.{◌≡◌, ◌+◌, ◌<◌, ◌^◌, Option, is_some};
ghost use Rattle.catalogue_rules.specs.Effects.{counted};
ghost use Rattle.catalogue_rules.specs.Plans.{total};
ghost use Rattle.catalogue_rules.specs.declared.entry.Entry.{Entry};

use onix_message::Effect;
use onix_terms::code::Code2;

/// What a product asks for, by its NotificationType of code list 1.
#[derive(Clone, Copy)]
pub enum Change {
    /// 01, 02 or 03: the whole record.
    Replace,
    /// 04: the supplies, where it has some.
    Update,
    /// 05.
    Delete,
    /// Any other type.
    Ignore,
}

impl Change {
    ghost use Rattle.catalogue_rules.specs.Effects.{change_of};

    /// What a NotificationType asks for.
    pub fn of(notification: Code2) -> Change
        ensures { result ≡ change_of notification }
    {
        match notification.as_str() {
            "01" | "02" | "03" => Change::Replace,
            "04" => Change::Update,
            "05" => Change::Delete,
            _ => Change::Ignore,
        }
    }
}

/// The counts with one more product, whose reference had a record or not.
pub fn counted(effect: Effect, change: Change, is_known: bool) -> Effect
    requires { total effect + 1 < 2 ^ 32 }
    ensures counts { (was : Option Entry) → is_some was ≡ is_known
        → result ≡ counted change was effect }
    ensures one { total result ≡ total effect + 1 }
{
    let mut counts = effect;
    match change {
        Change::Replace => counts.replaced += 1,
        Change::Update if is_known => counts.updated += 1,
        Change::Update => counts.unknown += 1,
        Change::Delete if is_known => counts.deleted += 1,
        Change::Delete => counts.unknown += 1,
        Change::Ignore => counts.ignored += 1,
    }
    counts
}
