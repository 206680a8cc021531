/// What a card is, once it was shown: a new card becomes one that is learned.
#[derive(Clone, Copy, Debug, PartialEq, Eq)]
pub(crate) enum Kind {
    Learning,
    Review,
    Relearning,
}

/// What the learner answers.
#[derive(Clone, Copy, Debug, PartialEq, Eq)]
pub(crate) enum Button {
    Again,
    Hard,
    Good,
    Easy,
}

/// What an answer reads of a card.
#[derive(Clone, Copy, Debug)]
pub(crate) struct CardState {
    pub kind: Kind,
    /// The column `left`: the steps that are left, and 1000 times those that fit into the day.
    pub left: u64,
    /// The days between its reviews.
    pub ivl: u64,
    /// By how much they grow, in permille.
    pub factor: u64,
    pub lapses: u64,
    /// How many days ago it was due.
    pub late: u64,
}

/// What an answer makes of a card.
#[derive(Clone, Copy, Debug)]
pub(crate) struct Outcome {
    pub kind: Kind,
    pub left: u64,
    pub ivl: u64,
    pub factor: u64,
    pub lapses: u64,
    pub leech: bool,
    pub suspended: bool,
    /// The seconds until the next step; none, if the card waits for its days.
    pub delay: Option<u64>,
}
