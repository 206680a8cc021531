// What follows for every caller from the rules of early answers.
ghost use Rattle.std.specs.Prelude.{ℤ};
ghost use Rattle.ak_away_answers.specs.EarlyAnswers.{IsEarly, early_edit};
ghost use Rattle.ak_base.specs.declared.cards.Card.{Card};
ghost use Rattle.ak_base.specs.declared.days.Day.{Day};
ghost use Rattle.ak_base.specs.declared.reviews.Review.{Review};
ghost use Rattle.ak_keep.specs.Collections.{Collection};
ghost use Rattle.ak_merge.specs.Edits.{Admits};
ghost use Rattle.ak_merge.specs.Holdings.{AreNamed, row_under};
ghost use Rattle.ak_study.specs.declared.answers.CardAnswer.{CardAnswer};

/// The edit of an early answer is admitted, so it keeps links with servers.
pub fn early_answers_are_admitted()
    ensures { (at : ℤ) (given : CardAnswer) (day : Day) (made : Card) (review : Review) (c : Collection) → AreNamed (row_under c)
        → IsEarly at given day c made review → Admits c (early_edit made review c) }
{}
