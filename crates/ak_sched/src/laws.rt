ghost use Rattle.ak_sched.specs.Laws.{HasOneAnswer, IsAbove};

/// The rules tell one answer to each card, options, button, day, word of chance, time taken and
/// review id. That there is one is what `answer` finds.
pub fn one_answer()
    ensures { HasOneAnswer }
{}

/// Hard waits less than Good, and Good less than Easy, up to the options' limit.
pub fn order_of_buttons()
    ensures good { IsAbove 2 3 }
    ensures easy { IsAbove 3 4 }
{}
