ghost use Rattle.std.specs.Prelude.{◌≡◌, IfOk, IfSome, Some, option_map, option_and_then};
ghost use Rattle.serde_json.specs.Data.{object};
ghost use Rattle.serde_json.specs.Find.{as_str};
ghost use Rattle.serde_json.specs.View.{view};
ghost use Rattle.ak_filtered.specs.Plans.{IsPlan, has_items, limit_of, order_number, order_of, plan_members, plan_of, plan_of_list, plan_of_terms, plan_text, plan_with};
ghost use Rattle.ak_base.specs.Rests.{members_of};
ghost use Rattle.ak_json.specs.Kinds.{integer_of};
ghost use Rattle.serde_json.specs.Find.{as_object, at, get};
ghost use Rattle.std.specs.Prelude.{codes};

use ak_base::{Deck, Memory, OfDeck, Rest, Text};
use serde_json::{Value, json};
use std::alloc::Global;

/// The order in which a filtered deck takes its cards. Of cards that stand at one place the one with the least id comes first.
#[derive(Clone, Copy, Debug, PartialEq, Eq)]
pub enum Order {
    /// The least days between reviews first. Its number is 2, and so on.
    ShortestInterval,
    LongestInterval,
    MostLapses,
    /// By the note's id, then by the card's place among the cards of its note.
    OldestNote,
    /// By the column `due`, which counts days for reviews and places for new cards.
    Due,
    /// By the note's id, the greatest first, then by the card's place as in `OldestNote`.
    NewestNote,
}

impl Order {
    /// The order of a number as a deck keeps it.
    pub(crate) fn of(number: i64) -> Option<Order>
        ensures { result ≡ order_of number }
    {
        match number {
            2 => Some(Order::ShortestInterval),
            3 => Some(Order::LongestInterval),
            4 => Some(Order::MostLapses),
            5 => Some(Order::OldestNote),
            6 => Some(Order::Due),
            7 => Some(Order::NewestNote),
            _ => None,
        }
    }

    /// Its number.
    fn number(self) -> i64
        ensures { result ≡ order_number self }
    {
        match self {
            Order::ShortestInterval => 2,
            Order::LongestInterval => 3,
            Order::MostLapses => 4,
            Order::OldestNote => 5,
            Order::Due => 6,
            Order::NewestNote => 7,
        }
    }
}

/// What a filtered deck is filled by.
#[derive(Debug, Drop)]
pub struct Plan {
    pub search: Text,
    /// How many cards it takes at most: 1 to 99,999.
    pub limit: u64,
    pub order: Order,
}

impl Plan {
    /// The plan of a search, the number of a limit and the number of an order, if these are in their ranges.
    pub(crate) fn with(
        alloc: Global,
        search: &str,
        limit: i64,
        order: i64,
    ) -> Result<Option<Plan>, Memory>
        ensures plan { IfOk result (λ plan. plan ≡ plan_with search.now limit order) }
        ensures range { IfOk result (λ plan. IfSome plan IsPlan) }
    {
        let Some(limit) = limit_of(limit) else {
            return Ok(None);
        };
        let Some(order) = Order::of(order) else {
            return Ok(None);
        };
        let search = Text::of(alloc, search)?;
        Ok(Some(Plan {
            search,
            limit,
            order,
        }))
    }

    /// The plan that a deck keeps, if it has one.
    pub(crate) fn of_deck(alloc: Global, deck: &Deck) -> Result<Option<Plan>, Memory>
        ensures plan { IfOk result (λ plan. plan ≡ plan_of deck.now.rest.text) }
        ensures range { IfOk result (λ plan. IfSome plan IsPlan) }
    {
        let keys = deck.rest.value(alloc)?;
        match keys.get("terms") {
            Some(terms) => plan_of_terms(alloc, terms),
            None => Ok(None),
        }
    }

    /// The further keys of a deck with this plan.
    pub(crate) fn rest(&self, alloc: Global) -> Result<Rest<OfDeck>, Memory>
        requires { IsPlan self.now }
        ensures text { IfOk result (λ rest. rest.text ≡ plan_text self.now) }
        ensures reads { IfOk result (λ rest. plan_of rest.text ≡ Some self.now) }
    {
        let value = self.value(alloc)?;
        Rest::of(alloc, &value)
    }

    /// The object of these keys.
    fn value(&self, alloc: Global) -> Result<Value, Memory>
        requires { IsPlan self.now }
        ensures { IfOk result (λ value. view value ≡ object (plan_members self.now)) }
    {
        let search = self.search.as_str();
        let limit = self.limit as i64;
        let order = self.order.number();
        Ok(json!(in alloc; {"terms": [[search, limit, order]]})?)
    }
}

/// The limit of a number.
fn limit_of(number: i64) -> Option<u64>
    ensures { result ≡ limit_of number }
{
    if 1 <= number && number <= 99_999 {
        return Some(number as u64);
    }
    None
}

/// The plan of a list of exactly one list.
fn plan_of_terms(alloc: Global, terms: &Value) -> Result<Option<Plan>, Memory>
    ensures plan { IfOk result (λ plan. plan ≡ plan_of_terms (view terms.now)) }
    ensures range { IfOk result (λ plan. IfSome plan IsPlan) }
{
    if !has_items(terms, 1) {
        return Ok(None);
    }
    match terms.get(0) {
        Some(list) => plan_of_list(alloc, list),
        None => Ok(None),
    }
}

/// The plan of a list of exactly a text and two whole numbers.
fn plan_of_list(alloc: Global, list: &Value) -> Result<Option<Plan>, Memory>
    ensures plan { IfOk result (λ plan. plan ≡ plan_of_list (view list.now)) }
    ensures range { IfOk result (λ plan. IfSome plan IsPlan) }
{
    if !has_items(list, 3) {
        return Ok(None);
    }
    let Some(search) = text_at(list, 0) else {
        return Ok(None);
    };
    let Some(limit) = number_at(list, 1) else {
        return Ok(None);
    };
    let Some(order) = number_at(list, 2) else {
        return Ok(None);
    };
    Plan::with(alloc, search, limit, order)
}

/// Whether the value is an array of so many items.
fn has_items(value: &Value, count: usize) -> bool
    ensures { result ≡ has_items count (view value.now) }
{
    match value.as_array() {
        Some(items) => items.as_slice().len() == count,
        None => false,
    }
}

/// The text at a place of an array.
fn text_at(list: &Value, place: usize) -> Option<&str>
    ensures { option_map (λ text. text.now) result ≡ option_and_then as_str (at place (view list.now)) }
{
    match list.get(place) {
        Some(item) => item.as_str(),
        None => None,
    }
}

/// The whole number at a place of an array.
fn number_at(list: &Value, place: usize) -> Option<i64>
    ensures { result ≡ option_and_then integer_of (at place (view list.now)) }
{
    match list.get(place) {
        Some(item) => item.as_i64(),
        None => None,
    }
}
