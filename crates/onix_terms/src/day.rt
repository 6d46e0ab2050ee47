//! Days of the calendar.

ghost use Rattle.std.specs.Prelude.{◌≡◌, ◌↔◌, ◌<◌, ◌++◌, ◌+ℤ◌, ◌≤ℤ◌, ◌<ℤ◌, IsTrue, IsSome, IsOk, IfOk, IfSome, OnOk, OnErr, pos};
ghost use Rattle.std.specs.String.{string_bytes};
ghost use Rattle.std.specs.Result.{result_ok};
ghost use Rattle.onix_terms.specs.Day.{IsDayNumber, date_of, day_at, day_of, day_text, eight_digits};

use crate::ascii::text_of;
use crate::digits::{read_digits, two_digits};
use crate::text::Text;
use crate::{Memory, NotATerm};
use jiff::civil::Date;
use jiff_core::civil;
use std::alloc::Global;
use std::marker::Model;
use std::str::FromStr;

/// A day from 1 January 0001 to 31 December 9999, which contracts see as its number: 0 for
/// 1 January 1970, and negative before it. Days are ordered by it.
#[derive(Clone, Copy, Debug, PartialEq, Eq, PartialOrd, Ord)]
pub struct Day {
    number: i32,
}

impl Model for Day {
    ghost use Rattle.std.specs.Prelude.{ℤ};
    ghost use Rattle.onix_terms.specs.Day.{IsDayNumber};

    ghost Value = { ℤ };

    ghost view = { λ d. d.number };

    ghost invariant = { λ d. IsDayNumber d.number };

    ghost inverse = { λ z. record { number = z } };
}

impl Day {
    /// The day whose date the text writes as YYYYMMDD, or `None` where it is not eight digits or
    /// the calendar has no such day of a year from 0001 to 9999.
    pub fn read(text: &str) -> Option<Day>
        ensures { result ≡ day_of text.now }
    {
        if text.len() != 8 {
            return None;
        }
        day_at(read_digits(text)?)
    }

    /// The day of this number, or `None` where it is below -719,162 or above 2,932,896.
    pub fn from_number(number: i32) -> Option<Day>
        ensures some { IsSome result ↔ IsDayNumber number }
        ensures value { IfSome result (λ d. d ≡ number) }
    {
        if number < -719_162 || number > 2_932_896 {
            return None;
        }
        Some(Day { number })
    }

    /// Its number: 0 for 1 January 1970.
    pub fn number(self) -> i32
        ensures value { result ≡ self }
        ensures range { IsDayNumber result }
    {
        self.number
    }

    /// The date as YYYYMMDD. It does not allocate.
    pub fn text(self, alloc: Global) -> Result<Text, Memory>
        ensures text { IfOk result (λ t. t ≡ day_text self) }
        ensures inline { IsOk result }
    {
        Text::from_str(alloc, text_of(&eight_digits(date_of(self))))
    }

    /// Appends the date as YYYYMMDD. Fails only if memory runs out, and the `String` is then
    /// as it was.
    pub fn write(self, out: &mut String) -> Result<(), Memory>
        ensures ok { OnOk result (string_bytes out.new ≡ string_bytes out.old ++ day_text self) }
        ensures err { OnErr result (string_bytes out.new ≡ string_bytes out.old) }
    {
        out.push_str(text_of(&eight_digits(date_of(self))))
    }

    /// The next day, or `None` after 31 December 9999.
    pub fn next(self) -> Option<Day>
        ensures some { IsSome result ↔ IsDayNumber (self +ℤ pos 1) }
        ensures value { IfSome result (λ d. d ≡ self +ℤ pos 1) }
    {
        Day::from_number(self.number() + 1)
    }

    /// The day this many days later.
    pub fn after(self, days: u32) -> Day
        requires { IsDayNumber (self +ℤ pos days) }
        ensures { result ≡ self +ℤ pos days }
    {
        Day {
            number: self.number + days as i32,
        }
    }

    /// The number of days from this day to one that is not before it.
    pub fn days_to(self, last: Day) -> u32
        requires { self ≤ℤ last }
        ensures sum { self +ℤ pos result ≡ last }
        ensures first { IsDayNumber self }
        ensures last { IsDayNumber last }
    {
        (last.number - self.number) as u32
    }

    /// The day before this one, which exists since `earlier` is before this one.
    pub fn day_before(self, earlier: Day) -> Day
        requires { earlier <ℤ self }
        ensures { result +ℤ pos 1 ≡ self }
    {
        let _ = earlier.number;
        Day {
            number: self.number - 1,
        }
    }
}

impl FromStr for Day {
    type Err = NotATerm;

    ghost from_str_gives = { λ text given. result_ok given ≡ day_of text };

    fn from_str(text: &str) -> Result<Day, NotATerm> {
        Day::read(text).ok_or(NotATerm)
    }
}

// The day whose date the number YYYYMMDD is.
fn day_at(date: u32) -> Option<Day>
    requires { date < 100_000_000 }
    ensures { result ≡ day_at date }
{
    let year = (date / 10_000) as i16;
    if year == 0 {
        return None;
    }
    match Date::new(year, (date / 100 % 100) as i8, (date % 100) as i8) {
        Ok(date) => Some(Day {
            number: date.to_plain().to_unix_epoch_day(),
        }),
        Err(_) => None,
    }
}

// The date of a day as the number YYYYMMDD.
fn date_of(day: Day) -> u32
    ensures date { result ≡ date_of day }
    ensures below { result < 100_000_000 }
{
    match civil::Date::from_unix_epoch_day(i64::from(day.number)) {
        Ok(date) => {
            let date = Date::from_plain(date);
            date.year() as u32 * 10_000 + date.month() as u32 * 100 + date.day() as u32
        }
        Err(_) => unreachable!(),
    }
}

// The eight digits of a number below 100,000,000.
fn eight_digits(n: u32) -> [u8; 8]
    requires { n < 100_000_000 }
    ensures { result ≡ eight_digits n }
{
    let n = u64::from(n);
    let [a, b] = two_digits(n / 1_000_000);
    let [c, d] = two_digits(n / 10_000 % 100);
    let [e, f] = two_digits(n / 100 % 100);
    let [g, h] = two_digits(n % 100);
    [a, b, c, d, e, f, g, h]
}
