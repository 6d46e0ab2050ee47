//! One series of the desk in memory.

ghost use Rattle.std.specs.Prelude.{◌≡◌, ◌≤◌, ◌+◌, ℕ, List, IfOk, OnOk, OnErr, Option, None, [], fold, length, nat_eq, if◌then◌else◌};
ghost use Rattle.std.specs.BTreeMap.{get};
ghost use Rattle.std.specs.FinMap as map;
ghost use Rattle.std.specs.Ordering.{nat_cmp};
ghost use Rattle.catalogue_rules.specs.Offers.{offers_in};
ghost use Rattle.desk_memory.specs.Folded.{IsFolded};
ghost use Rattle.desk_memory.specs.KeptSeries.{AreSame, stands_at};
ghost use Rattle.desk_memory.specs.Stands.{with_standing};
ghost use Rattle.series_rules.specs.Answers.{answer_against, placed_answer, waived_by};
ghost use Rattle.series_rules.specs.declared.requests.Standing.{Standing};
ghost use Rattle.series_rules.specs.Gaps.{IsGreatest, report_by};
ghost use Rattle.series_rules.specs.Series.{IsFront, after_all};

use crate::fold::Fold;
use crate::gaps::held_numbers;
use catalogue_rules::catalogue::Catalogue;
use onix_message::Agreement;
use onix_message::contents::Contents;
use onix_terms::isbn13::Isbn13;
use onix_terms::number::Number;
use onix_terms::series_name::SeriesName;
use price_rules::collector::OfferCollector;
use series_rules::answers::{DeliveryAnswer, GapReport, WaiveAnswer};
use series_rules::gaps::gap_report;
use series_rules::requests::Standing;
use std::alloc::{AllocError, Global};
use std::collections::BTreeMap;
use std::marker::Model;

/// An agreed series and what stands at its numbers, which contracts see, with the fold of its
/// first numbers, so that each message is applied once. Below its first number nothing stands.
#[derive(Drop)]
pub(crate) struct Series {
    agreement: Agreement,
    numbers: BTreeMap<Number, Standing>,
    fold: Fold,
}

impl Model for Series {
    ghost use Rattle.std.specs.BTreeMap.{get};
    ghost use Rattle.std.specs.Ordering.{nat_cmp};
    ghost use Rattle.desk_memory.specs.Folded.{IsFolded};
    ghost use Rattle.desk_memory.specs.KeptSeries.{KeptSeries};
    ghost use Rattle.series_rules.specs.Gaps.{NoneBelow};

    ghost Value = { KeptSeries };

    ghost view = { λ s. record { agreement = s.agreement; numbers = s.numbers.entries } };

    ghost invariant = { λ s. IsFolded (get nat_cmp s.numbers) s.agreement.first s.fold
        × NoneBelow (get nat_cmp s.numbers) s.agreement.first };
}

// Removes what stands at a number.
fn take_out(numbers: &mut BTreeMap<Number, Standing>, number: Number)
    ensures { AreSame (λ n. if nat_eq number n then None else get nat_cmp numbers.old n)
        (get nat_cmp numbers.new) }
{
    numbers.remove(&number);
}

// Puts contents at a number that has nothing.
fn deliver_new(
    numbers: &mut BTreeMap<Number, Standing>,
    fold: &mut Fold,
    series: SeriesName,
    from: Number,
    number: Number,
    contents: Contents,
) -> Result<DeliveryAnswer, AllocError>
    requires above { from ≤ number }
    requires absent { get nat_cmp numbers.old number ≡ None }
    requires folded { IsFolded (get nat_cmp numbers.old) from fold.old }
    ensures folded { IsFolded (get nat_cmp numbers.new) from fold.new }
    ensures ok { OnOk result (AreSame
        (with_standing (get nat_cmp numbers.old) number (Standing.Message contents))
        (get nat_cmp numbers.new)) }
    ensures answer { (hs : List Standing) → IsFront (get nat_cmp numbers.new) from hs
        → IfOk result (λ a. a ≡ placed_answer hs series from number) }
    ensures err { OnErr result (AreSame (get nat_cmp numbers.old) (get nat_cmp numbers.new)) }
{
    numbers.insert(number, Standing::Message(contents))?;
    match fold.place(numbers, series, from, number) {
        Ok(answer) => Ok(answer),
        Err(e) => {
            take_out(numbers, number);
            Err(e)
        }
    }
}

// Puts contents at a number, unless something stands there, and gives the answer to the delivery.
fn deliver_at(
    numbers: &mut BTreeMap<Number, Standing>,
    fold: &mut Fold,
    series: SeriesName,
    from: Number,
    number: Number,
    contents: Contents,
) -> Result<DeliveryAnswer, AllocError>
    requires above { from ≤ number }
    requires folded { IsFolded (get nat_cmp numbers.old) from fold.old }
    ensures folded { IsFolded (get nat_cmp numbers.new) from fold.new }
    ensures ok { OnOk result (AreSame
        (with_standing (get nat_cmp numbers.old) number (Standing.Message contents))
        (get nat_cmp numbers.new)) }
    ensures answer { (hs : List Standing) → IsFront (get nat_cmp numbers.new) from hs
        → IfOk result (λ a.
        a ≡ answer_against hs series from number contents (get nat_cmp numbers.new number)) }
    ensures err { OnErr result (AreSame (get nat_cmp numbers.old) (get nat_cmp numbers.new)) }
{
    match numbers.get(&number) {
        Some(Standing::Waived) => {
            drop(contents);
            Ok(DeliveryAnswer::Waived { series, number })
        }
        Some(Standing::Message(other)) => {
            let is_same = other.is_same(&contents);
            drop(contents);
            if is_same {
                fold.place(numbers, series, from, number)
            } else {
                Ok(DeliveryAnswer::OtherContents { series, number })
            }
        }
        None => Ok(deliver_new(numbers, fold, series, from, number, contents)?),
    }
}

// Waives a number, unless something stands there, and gives the answer to the waiver.
fn waive_at(
    numbers: &mut BTreeMap<Number, Standing>,
    number: Number,
) -> Result<WaiveAnswer, AllocError>
    ensures folded { (from : ℕ) (fold : Fold) → IsFolded (get nat_cmp numbers.old) from fold
        → IsFolded (get nat_cmp numbers.new) from fold }
    ensures ok { OnOk result (AreSame
        (with_standing (get nat_cmp numbers.old) number Standing.Waived)
        (get nat_cmp numbers.new)) }
    ensures answer { IfOk result (λ a. a ≡ waived_by (get nat_cmp numbers.new number)) }
    ensures err { OnErr result (AreSame (get nat_cmp numbers.old) (get nat_cmp numbers.new)) }
{
    match numbers.get(&number) {
        Some(Standing::Waived) => Ok(WaiveAnswer::Waived),
        Some(Standing::Message(_)) => Ok(WaiveAnswer::Had),
        None => {
            numbers.insert(number, Standing::Waived)?;
            Ok(WaiveAnswer::Waived)
        }
    }
}

impl Series {
    /// An agreed series at whose numbers nothing stands. It does not allocate.
    pub(crate) fn new(alloc: Global, agreement: Agreement) -> Series
        ensures agreement { result.agreement ≡ agreement }
        ensures nothing { AreSame (λ _. None) (stands_at result.numbers) }
    {
        let fold = Fold::new(alloc, agreement.first);
        Series {
            agreement,
            numbers: BTreeMap::new(alloc),
            fold,
        }
    }

    pub(crate) fn agreement(&self) -> &Agreement
        ensures { result.now ≡ self.now.agreement }
    {
        &self.agreement
    }

    /// Puts contents at a number, unless something stands there, and gives the answer to the
    /// delivery.
    pub(crate) fn deliver(
        &mut self,
        number: Number,
        contents: Contents,
    ) -> Result<DeliveryAnswer, AllocError>
        requires { self.old.agreement.first ≤ number }
        ensures agreement { self.new.agreement ≡ self.old.agreement }
        ensures ok { OnOk result (AreSame
            (with_standing (stands_at self.old.numbers) number (Standing.Message contents))
            (stands_at self.new.numbers)) }
        ensures answer { (hs : List Standing)
            → IsFront (stands_at self.new.numbers) self.old.agreement.first hs → IfOk result (λ a.
            a ≡ answer_against hs self.old.agreement.name self.old.agreement.first number contents
            (stands_at self.new.numbers number)) }
        ensures err { OnErr result
            (AreSame (stands_at self.old.numbers) (stands_at self.new.numbers)) }
    {
        let name = self.agreement.name;
        let first = self.agreement.first;
        deliver_at(
            &mut self.numbers,
            &mut self.fold,
            name,
            first,
            number,
            contents,
        )
    }

    /// Waives a number, unless something stands there, and gives the answer to the waiver.
    pub(crate) fn waive(&mut self, number: Number) -> Result<WaiveAnswer, AllocError>
        requires { self.old.agreement.first ≤ number }
        ensures agreement { self.new.agreement ≡ self.old.agreement }
        ensures ok { OnOk result (AreSame
            (with_standing (stands_at self.old.numbers) number Standing.Waived)
            (stands_at self.new.numbers)) }
        ensures answer { IfOk result (λ a. a ≡ waived_by (stands_at self.new.numbers number)) }
        ensures err { OnErr result
            (AreSame (stands_at self.old.numbers) (stands_at self.new.numbers)) }
    {
        let answer = waive_at(&mut self.numbers, number)?;
        // Where memory runs out, a later call goes on.
        let _ = self.fold.go_on(&self.numbers, self.agreement.first);
        Ok(answer)
    }

    /// The report on its numbers.
    pub(crate) fn gaps(&self, alloc: Global) -> Result<GapReport, AllocError>
        ensures { (hs : List Standing) (greatest : Option ℕ)
            → IsFront (stands_at self.now.numbers) self.now.agreement.first hs
            → IsGreatest (stands_at self.now.numbers) greatest →
            IfOk result
            (λ r. r
            ≡ report_by self.now.agreement.name
            (stands_at self.now.numbers) self.now.agreement.first
            (self.now.agreement.first + length hs) greatest) }
    {
        let first = self.agreement.first;
        let (next, held) = held_numbers(alloc, &self.numbers, first)?;
        gap_report(alloc, self.agreement.name, first, next, &held)
    }

    // Its catalogue, folded anew.
    fn fold_anew(&self, alloc: Global) -> Result<Catalogue, AllocError>
        ensures { (hs : List Standing)
            → IsFront (stands_at self.now.numbers) self.now.agreement.first hs
            → IfOk result (λ c. c ≡ after_all map.empty hs) }
    {
        let first = self.agreement.first;
        let mut fold = Fold::new(alloc, first);
        fold.go_on(&self.numbers, first)?;
        Ok(fold.catalogue)
    }

    /// Its catalogue: a copy of the kept one where nothing is left to fold.
    pub(crate) fn catalogue(&self, alloc: Global) -> Result<Catalogue, AllocError>
        ensures { (hs : List Standing)
            → IsFront (stands_at self.now.numbers) self.now.agreement.first hs
            → IfOk result (λ c. c ≡ after_all map.empty hs) }
    {
        if self.fold.is_whole(&self.numbers, self.agreement.first) {
            return self.fold.catalogue.clone();
        }
        self.fold_anew(alloc)
    }

    /// Lists the articles of its catalogue, as far as memory allows, so that `collect_offers` need
    /// not look at each record.
    pub(crate) fn list_articles(&mut self)
        ensures { self.new ≡ self.old }
    {
        self.fold.list_articles(&self.numbers);
    }

    /// Collects the article's offers in its catalogue, in order of reference and place.
    pub(crate) fn collect_offers<C: OfferCollector>(
        &self,
        alloc: Global,
        isbn: &Isbn13,
        collector: &mut C,
    ) -> Result<(), AllocError>
        ensures { (hs : List Standing)
            → IsFront (stands_at self.now.numbers) self.now.agreement.first hs →
            OnOk result
            (collector.new
            ≡ fold C.collected collector.old
            (offers_in self.now.agreement.name (after_all map.empty hs) isbn.now)) }
    {
        let name = self.agreement.name;
        if self.fold.is_whole(&self.numbers, self.agreement.first) {
            return self.fold.collect_offers(&name, isbn, collector);
        }
        let catalogue = self.fold_anew(alloc)?;
        catalogue.collect_offers(&name, isbn, collector)
    }
}
