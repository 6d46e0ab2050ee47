//! The fold of one series of the desk in memory: what its first numbers come to.

ghost use Rattle.std.specs.Prelude.{◌≡◌, ◌≤◌, ◌+◌, ◌-◌, ◌++◌, ◌∷◌, [], ℕ, List, IfOk, IsTrue, OnOk, OnErr, fold, option_copied, slice_get};
ghost use Rattle.std.specs.BTreeMap.{get};
ghost use Rattle.std.specs.FinMap as map;
ghost use Rattle.std.specs.Ordering.{nat_cmp};
ghost use Rattle.catalogue_rules.specs.Offers.{offers_in};
ghost use Rattle.desk_memory.specs.Folded.{IsFold, IsFolded};
ghost use Rattle.series_rules.specs.Answers.{placed_answer};
ghost use Rattle.series_rules.specs.declared.requests.Standing.{Standing};
ghost use Rattle.series_rules.specs.Series.{IsFront, after_all, after_standing, effect_of_standing};

use crate::articles::Articles;
use catalogue_rules::catalogue::Catalogue;
use onix_message::Effect;
use onix_terms::isbn13::Isbn13;
use onix_terms::number::Number;
use onix_terms::series_name::SeriesName;
use price_rules::collector::OfferCollector;
use series_rules::answers::DeliveryAnswer;
use series_rules::requests::Standing;
use std::alloc::{AllocError, Global};
use std::collections::BTreeMap;

// Applies one of what stands.
fn apply_standing(catalogue: &mut Catalogue, standing: &Standing) -> Result<Effect, AllocError>
    ensures ok { OnOk result (catalogue.new ≡ after_standing catalogue.old standing.now) }
    ensures effect { IfOk result (λ e. e ≡ effect_of_standing catalogue.old standing.now) }
    ensures err { OnErr result (catalogue.new ≡ catalogue.old) }
{
    match standing {
        Standing::Message(contents) => catalogue.apply(contents),
        Standing::Waived => Ok(Effect::none()),
    }
}

// Where a loop that goes on up to `next` may begin: there, or where no message can have that
// number, at the first number of the series.
fn start_of(next: u32, from: Number) -> Number
    requires { from ≤ next }
    ensures { result ≤ next }
{
    match Number::from_value(next) {
        Some(number) => number,
        None => from,
    }
}

/// What stands at the first numbers of a series, applied in order, each once, and its articles.
#[derive(Drop)]
pub(crate) struct Fold {
    pub(crate) catalogue: Catalogue,
    /// What stands at each number did, in order of number; a waived one did nothing.
    pub(crate) effects: Vec<Effect>,
    /// The first number that is not folded.
    pub(crate) next: u32,
    pub(crate) articles: Articles,
}

impl Fold {
    /// The fold of nothing. It does not allocate.
    pub(crate) fn new(alloc: Global, from: Number) -> Fold
        ensures { IsFold from [] result }
    {
        Fold {
            catalogue: Catalogue::new(alloc),
            effects: Vec::new(alloc),
            next: from.value(),
            articles: Articles::new(alloc, from),
        }
    }

    // Applies what stands at the next number.
    fn add(&mut self, number: Number, standing: &Standing) -> Result<(), AllocError>
        requires { number ≡ self.old.next }
        ensures ok { (from : ℕ) (hs : List Standing) → IsFold from hs self.old
            → OnOk result (IsFold from (hs ++ standing.now ∷ []) self.new) }
        ensures err { (from : ℕ) (hs : List Standing) → IsFold from hs self.old
            → OnErr result (IsFold from hs self.new) }
    {
        self.effects.reserve(1)?;
        let effect = apply_standing(&mut self.catalogue, standing)?;
        self.effects.push_reserved(effect);
        self.next = number.value() + 1;
        Ok(())
    }

    /// Goes on up to the first number that has nothing, or as far as memory allows.
    pub(crate) fn go_on(
        &mut self,
        numbers: &BTreeMap<Number, Standing>,
        from: Number,
    ) -> Result<(), AllocError>
        requires { IsFolded (get nat_cmp numbers.now) from self.old }
        ensures folded { IsFolded (get nat_cmp numbers.now) from self.new }
        ensures front { (hs : List Standing) → IsFront (get nat_cmp numbers.now) from hs
            → OnOk result (IsFold from hs self.new) }
    {
        let start = start_of(self.next, from);
        for (number, standing) in numbers.range(start..) {
            if number.value() < self.next {
                continue;
            }
            if number.value() > self.next {
                return Ok(());
            }
            self.add(*number, standing)?;
        }
        Ok(())
    }

    /// Whether all is folded up to the first number that has nothing.
    pub(crate) fn is_whole(&self, numbers: &BTreeMap<Number, Standing>, from: Number) -> bool
        requires { IsFolded (get nat_cmp numbers.now) from self.now }
        ensures { (hs : List Standing) → IsFront (get nat_cmp numbers.now) from hs → IsTrue result
            → IsFold from hs self.now }
    {
        match Number::from_value(self.next) {
            Some(next) => match numbers.get(&next) {
                Some(_) => false,
                None => true,
            },
            None => false,
        }
    }

    /// Lists the articles of what is folded, as far as memory allows.
    pub(crate) fn list_articles(&mut self, numbers: &BTreeMap<Number, Standing>)
        ensures { (from : ℕ) → IsFolded (get nat_cmp numbers.now) from self.old
            → IsFolded (get nat_cmp numbers.now) from self.new }
    {
        self.articles.go_on(numbers, self.next);
    }

    /// Collects the article's offers in the catalogue, in order of reference and place.
    pub(crate) fn collect_offers<C: OfferCollector>(
        &self,
        series: &SeriesName,
        isbn: &Isbn13,
        collector: &mut C,
    ) -> Result<(), AllocError>
        ensures { (from : ℕ) (hs : List Standing) → IsFold from hs self.now → OnOk result
            (collector.new
            ≡ fold C.collected collector.old
            (offers_in series.now (after_all map.empty hs) isbn.now)) }
    {
        self.articles
            .collect_offers(&self.catalogue, self.next, series, isbn, collector)
    }

    // What the message of a number did, where it is folded.
    fn effect_of(&self, from: Number, number: Number) -> Option<&Effect>
        requires { from ≤ number }
        ensures { option_copied result ≡ slice_get self.now.effects.items (number - from) }
    {
        self.effects.get((number.value() - from.value()) as usize)
    }

    // What a delivery is answered whose contents stand at this number.
    fn answer(&self, series: SeriesName, from: Number, number: Number) -> DeliveryAnswer
        requires { from ≤ number }
        ensures { (hs : List Standing) → IsFold from hs self.now
            → result ≡ placed_answer hs series from number }
    {
        match self.effect_of(from, number) {
            Some(effect) => DeliveryAnswer::Applied {
                series,
                number,
                effect: *effect,
            },
            None => DeliveryAnswer::Held {
                series,
                number,
                waiting_for: self.next,
            },
        }
    }

    /// Goes on, and answers a delivery whose contents stand at this number. Where memory runs out,
    /// that number stays unfolded.
    pub(crate) fn place(
        &mut self,
        numbers: &BTreeMap<Number, Standing>,
        series: SeriesName,
        from: Number,
        number: Number,
    ) -> Result<DeliveryAnswer, AllocError>
        requires above { from ≤ number }
        requires folded { IsFolded (get nat_cmp numbers.now) from self.old }
        ensures folded { IsFolded (get nat_cmp numbers.now) from self.new }
        ensures answer { (hs : List Standing) → IsFront (get nat_cmp numbers.now) from hs
            → IfOk result (λ a. a ≡ placed_answer hs series from number) }
        ensures err { OnErr result (self.new.next ≤ number) }
    {
        match self.go_on(numbers, from) {
            Ok(()) => Ok(self.answer(series, from, number)),
            Err(e) => {
                if number.value() < self.next {
                    return Ok(self.answer(series, from, number));
                }
                Err(e)
            }
        }
    }
}
