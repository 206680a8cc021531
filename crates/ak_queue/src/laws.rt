// What holds of the choice of new cards and of the next card, apart from the program.
ghost use Rattle.std.specs.Prelude.{◌≡◌, ◌↔◌, ℕ, ℤ, Bool, List, [], None};
ghost use Rattle.std.specs.List.{list_all};
ghost use Rattle.std.specs.List.Sorted.{IsStrictlySortedBy};
ghost use Rattle.ak_base.specs.OptionGroups.{AreOpeningOptions};
ghost use Rattle.ak_base.specs.declared.option_groups.Options.{Options as Group};
ghost use Rattle.ak_base.specs.declared.days.Day.{Day};
ghost use Rattle.ak_base.specs.declared.decks.Deck.{Deck};
ghost use Rattle.ak_keep.specs.Collections.{Holding};
ghost use Rattle.ak_queue.specs.Choices.{TakesInTurn, first_choice};
ghost use Rattle.ak_queue.specs.LawfulSets.{IsLawfulChoice, IsNoLarger, TakesChoice, new_choice};
ghost use Rattle.ak_queue.specs.Nexts.{IsEmpty, next_of};
ghost use Rattle.ak_queue.specs.Orders.{DueKey, NewKey, due_cmp, in_order, new_cmp};
ghost use Rattle.ak_queue.specs.Limits.{new_per_day, reviews_per_day};
ghost use Rattle.ak_queue.specs.declared.limits.DeckLimits.{DeckLimits};
ghost use Rattle.ak_queue.specs.declared.nexts.Mixing.{Mixing};
ghost use Rattle.ak_queue.specs.declared.day_queues.DayQueue.{DayQueue};

/// The new cards that a queue takes are a lawful set.
pub fn the_new_list_is_lawful()
    ensures lawful { (h : Holding) (day : Day) (deck : Deck) → IsLawfulChoice h.rows day deck (new_choice h day deck) }
    ensures taken { (h : Holding) (day : Day) (deck : Deck) → TakesChoice h day deck }
{}

/// No lawful set of the new cards is larger than the one that a queue takes, whichever of them one picks.
pub fn no_larger_new_list()
    ensures { (h : Holding) (day : Day) (deck : Deck) (pick : NewKey → Bool) → IsNoLarger pick h day deck }
{}

/// There is no next card exactly if all lists of the day are empty.
#[tactic(auto, using(crate::proofs::Mixed::ends))]
pub fn next_ends_with_all_lists()
    ensures { (mixing : Mixing) (done : ℕ) (queue : DayQueue) → (next_of mixing done queue ≡ None) ↔ IsEmpty queue }
{}

/// The choice of new cards takes each card in its turn, if that leaves it lawful.
pub fn each_card_in_its_turn()
    ensures none { (limits : List DeckLimits) → first_choice limits [] ≡ [] }
    ensures next { (limits : List DeckLimits) (before : List NewKey) (card : NewKey) → TakesInTurn limits before card }
{}

/// What waits ascends by due and then by id, and nothing is lost.
pub fn lists_ascend()
    ensures ascend { (keys : List DueKey) → IsStrictlySortedBy due_cmp (in_order due_cmp keys) }
    ensures whole { (p : DueKey → Bool) (keys : List DueKey) → list_all p (in_order due_cmp keys) ≡ list_all p keys }
{}

/// New cards ascend by the path of their deck, then by due, then by id, and none is lost.
pub fn new_cards_ascend()
    ensures ascend { (keys : List NewKey) → IsStrictlySortedBy new_cmp (in_order new_cmp keys) }
    ensures whole { (p : NewKey → Bool) (keys : List NewKey) → list_all p (in_order new_cmp keys) ≡ list_all p keys }
{}

/// If no options are held, as many cards are taken a day as by the options that a collection opens with.
pub fn opening_options_serve()
    ensures new_cards { (second : ℤ) (o : Group) → AreOpeningOptions second o → new_per_day None ≡ o.new_per_day }
    ensures reviews { (second : ℤ) (o : Group) → AreOpeningOptions second o → reviews_per_day None ≡ o.rev_per_day }
{}
