ghost use Rattle.std.specs.Prelude.{◌≡◌, IfOk};

use crate::columns::{code_fault, first_fault, id_fault, long_fault, stamp_fault};
use crate::{
    DAY_SECONDS, LAST_USN, LONGEST_STEP, List, Memory, NAME_BYTES, OfOptions, REST_BYTES, Rest,
    RowFault, Text,
};
use std::alloc::Global;

/// How the cards of a deck are scheduled: one of Anki's option groups.
#[derive(Debug, PartialEq, Drop)]
pub struct Options {
    /// When the group was made, in milliseconds.
    pub id: i64,
    /// When it was changed last, in seconds.
    pub stamp: i64,
    /// The update sequence number (usn), -1 for a group that was not sent yet.
    pub usn: i64,
    pub name: Text,
    /// The longest time of an answer that counts, in seconds.
    pub max_taken: i64,
    /// The steps of a new card, in seconds.
    pub new_steps: List<i64>,
    /// The days after the last step.
    pub grad_ivl: i64,
    /// The days after Easy.
    pub easy_ivl: i64,
    /// The factor of a card that was learned, in permille.
    pub initial_factor: i64,
    pub new_per_day: i64,
    pub new_bury: bool,
    pub rev_per_day: i64,
    /// What Easy multiplies the days by besides the factor, in permille.
    pub ease4: i64,
    /// What every review multiplies the days by, in permille.
    pub ivl_fct: i64,
    /// The most days after a review.
    pub max_ivl: i64,
    /// What Hard multiplies the days by in place of the factor, in permille.
    pub hard_factor: i64,
    pub rev_bury: bool,
    /// The steps of a card that was forgotten, in seconds.
    pub lapse_steps: List<i64>,
    /// What is left of the days of a card that was forgotten, in permille.
    pub mult: i64,
    /// The fewest days of a card that was forgotten.
    pub min_int: i64,
    /// At how many lapses a card is a leech, or 0 for never.
    pub leech_fails: i64,
    /// 0 if a leech is suspended, else 1.
    pub leech_action: i64,
    pub rest: Rest<OfOptions>,
}

impl Options {
    ghost use Rattle.ak_base.specs.Columns.{first_fault};
    ghost use Rattle.ak_base.specs.OptionGroups.{options_faults, options_faults_by, general_faults, new_faults_by, rev_faults, lapse_faults_by, bad_step, steps_fault, AreOpeningOptions};

    /// The options that a collection opens with: group 1, changed at this second. They serve too where no others are held.
    pub fn opening(alloc: Global, stamp: i64) -> Result<Options, Memory>
        ensures { IfOk result (AreOpeningOptions stamp) }
    {
        let name = Text::of(alloc, "Default")?;
        let new_steps = List::of(vec![in alloc; 60, 600]?);
        let lapse_steps = List::of(vec![in alloc; 600]?);
        let rest = Rest::empty(alloc)?;
        Ok(Options {
            id: 1,
            stamp,
            usn: -1,
            name,
            max_taken: 60,
            new_steps,
            grad_ivl: 1,
            easy_ivl: 4,
            initial_factor: 2_500,
            new_per_day: 20,
            new_bury: false,
            rev_per_day: 200,
            ease4: 1_300,
            ivl_fct: 1_000,
            max_ivl: 36_500,
            hard_factor: 1_200,
            rev_bury: false,
            lapse_steps,
            mult: 0,
            min_int: 1,
            leech_fails: 8,
            leech_action: 0,
            rest,
        })
    }

    /// The first column that is out of its range. Columns are counted in the order of the fields.
    #[tactic(auto, using(crate::proofs::OpeningOptions::faults_in_seconds))]
    pub fn check(&self) -> Result<(), RowFault>
        ensures { result ≡ first_fault (options_faults self.now) }
    {
        self.check_by(LONGEST_STEP)
    }

    /// The same check of a group whose steps are counted in another unit, of which the longest step has `longest`.
    #[tactic(auto, using(crate::proofs::FirstFaults::fault_of_front, crate::proofs::FirstFaults::fault_behind))]
    pub fn check_by(&self, longest: i64) -> Result<(), RowFault>
        ensures { result ≡ first_fault (options_faults_by longest self.now) }
    {
        self.check_general()?;
        self.check_new(longest)?;
        self.check_reviews()?;
        self.check_lapses(longest)
    }

    /// What the group is called, when it was changed, and what serves every card.
    #[tactic(auto, unfolding(crate::specs::OptionGroups::general_faults))]
    fn check_general(&self) -> Result<(), RowFault>
        ensures { result ≡ first_fault (general_faults self.now) }
    {
        first_fault(&[
            id_fault(self.id),
            stamp_fault(self.stamp),
            code_fault(2, self.usn, -1, LAST_USN),
            long_fault(3, self.name.as_str().len() as u64, NAME_BYTES),
            code_fault(4, self.max_taken, 0, DAY_SECONDS),
        ])
    }

    /// What serves new cards.
    #[tactic(auto, unfolding(crate::specs::OptionGroups::new_faults_by))]
    fn check_new(&self, longest: i64) -> Result<(), RowFault>
        ensures { result ≡ first_fault (new_faults_by longest self.now) }
    {
        first_fault(&[
            Options::steps_fault(longest, 5, self.new_steps.as_slice()),
            code_fault(6, self.grad_ivl, 1, 100_000),
            code_fault(7, self.easy_ivl, 1, 100_000),
            code_fault(8, self.initial_factor, 1_300, 100_000),
            code_fault(9, self.new_per_day, 0, 999_999),
        ])
    }

    /// What serves reviews.
    #[tactic(auto, unfolding(crate::specs::OptionGroups::rev_faults))]
    fn check_reviews(&self) -> Result<(), RowFault>
        ensures { result ≡ first_fault (rev_faults self.now) }
    {
        first_fault(&[
            code_fault(11, self.rev_per_day, 0, 999_999),
            code_fault(12, self.ease4, 1, 100_000),
            code_fault(13, self.ivl_fct, 1, 100_000),
            code_fault(14, self.max_ivl, 1, 100_000),
            code_fault(15, self.hard_factor, 1, 100_000),
        ])
    }

    /// What serves cards that were forgotten, and the rest.
    #[tactic(auto, unfolding(crate::specs::OptionGroups::lapse_faults_by))]
    fn check_lapses(&self, longest: i64) -> Result<(), RowFault>
        ensures { result ≡ first_fault (lapse_faults_by longest self.now) }
    {
        first_fault(&[
            Options::steps_fault(longest, 17, self.lapse_steps.as_slice()),
            code_fault(18, self.mult, 0, 1_000),
            code_fault(19, self.min_int, 1, 100_000),
            code_fault(20, self.leech_fails, 0, 999_999),
            code_fault(21, self.leech_action, 0, 1),
            long_fault(22, self.rest.as_str().len() as u64, REST_BYTES),
        ])
    }

    /// The fault of a column of steps, if there is one.
    fn steps_fault(longest: i64, column: u8, steps: &[i64]) -> Option<RowFault>
        ensures { result ≡ steps_fault longest column steps.now }
    {
        match long_fault(column, steps.len() as u64, 50) {
            Some(fault) => Some(fault),
            None => Options::bad_step(longest, column, steps),
        }
    }

    /// The fault of the first step that is not from 1 to the longest.
    fn bad_step(longest: i64, column: u8, steps: &[i64]) -> Option<RowFault>
        ensures { result ≡ bad_step longest column steps.now }
    {
        for step in steps {
            if let Some(fault) = code_fault(column, *step, 1, longest) {
                return Some(fault);
            }
        }
        None
    }

    /// An equal group of its own.
    pub fn copy(&self) -> Result<Options, Memory>
        ensures { IfOk result (λ made. made ≡ self.now) }
    {
        let name = self.name.copy()?;
        let new_steps = self.new_steps.copy()?;
        let lapse_steps = self.lapse_steps.copy()?;
        let rest = self.rest.copy()?;
        Ok(self.assembled(name, new_steps, lapse_steps, rest))
    }

    /// An equal group over copies of its texts and steps.
    fn assembled(
        &self,
        name: Text,
        new_steps: List<i64>,
        lapse_steps: List<i64>,
        rest: Rest<OfOptions>,
    ) -> Options
        requires name { name ≡ self.now.name }
        requires new_steps { new_steps ≡ self.now.new_steps }
        requires lapse_steps { lapse_steps ≡ self.now.lapse_steps }
        requires rest { rest ≡ self.now.rest }
        ensures { result ≡ self.now }
    {
        Options {
            id: self.id,
            stamp: self.stamp,
            usn: self.usn,
            name,
            max_taken: self.max_taken,
            new_steps,
            grad_ivl: self.grad_ivl,
            easy_ivl: self.easy_ivl,
            initial_factor: self.initial_factor,
            new_per_day: self.new_per_day,
            new_bury: self.new_bury,
            rev_per_day: self.rev_per_day,
            ease4: self.ease4,
            ivl_fct: self.ivl_fct,
            max_ivl: self.max_ivl,
            hard_factor: self.hard_factor,
            rev_bury: self.rev_bury,
            lapse_steps,
            mult: self.mult,
            min_int: self.min_int,
            leech_fails: self.leech_fails,
            leech_action: self.leech_action,
            rest,
        }
    }
}
