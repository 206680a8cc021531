ghost use Rattle.std.specs.Prelude.{◌≡◌, Ok, IfOk, map};
ghost use Rattle.serde_json.specs.View.{view};
ghost use Rattle.ak_base.specs.Columns.{first_fault};
ghost use Rattle.ak_base.specs.OptionGroups.{options_faults_by};
ghost use Rattle.ak_json.specs.Versions.{version_of, whole_form, new_form_of, rev_form_of, lapse_form_of, longest_step, in_seconds, seconds_of};
ghost use Rattle.ak_json.specs.Ranges.{AreMinutes};

use crate::forms::{LAPSE, NEW, OLD_LAPSE, OLD_NEW, OLD_OPTIONS, OLD_REV, OPTIONS, REV};
use crate::keys::{Key, Place};
use crate::kinds::Kind;
use ak_base::{LONGEST_STEP, List, Memory, Options};
use serde_json::Value;
use std::alloc::Global;

/// The longest step of version 1, in minutes.
const LONGEST_MINUTES: i64 = 1_000_000;

/// The version in which an option group is written.
#[derive(Clone, Copy)]
pub(crate) enum Version {
    /// Steps are minutes, factors whole numbers of thousandths.
    First,
    /// Steps are seconds, factors decimal texts.
    Second,
}

impl Version {
    /// The version of a document: the first exactly if `new` is an object with the key `delays`.
    pub(crate) fn of(value: &Value) -> Version
        ensures { result ≡ version_of (view value.now) }
    {
        match value.get(Key::New.text()) {
            None => Version::Second,
            Some(new) => match new.get(Key::Delays.text()) {
                None => Version::Second,
                Some(_) => Version::First,
            },
        }
    }

    /// The columns of an option group.
    pub(crate) fn form(self) -> &'static [(Place, Kind)]
        ensures { result.now ≡ whole_form self }
    {
        match self {
            Version::First => &OLD_OPTIONS,
            Version::Second => &OPTIONS,
        }
    }

    /// Those inside `new`.
    pub(crate) fn new_form(self) -> &'static [(Place, Kind)]
        ensures { result.now ≡ new_form_of self }
    {
        match self {
            Version::First => &OLD_NEW,
            Version::Second => &NEW,
        }
    }

    /// Those inside `rev`.
    pub(crate) fn rev_form(self) -> &'static [(Place, Kind)]
        ensures { result.now ≡ rev_form_of self }
    {
        match self {
            Version::First => &OLD_REV,
            Version::Second => &REV,
        }
    }

    /// Those inside `lapse`.
    pub(crate) fn lapse_form(self) -> &'static [(Place, Kind)]
        ensures { result.now ≡ lapse_form_of self }
    {
        match self {
            Version::First => &OLD_LAPSE,
            Version::Second => &LAPSE,
        }
    }

    /// The longest step in the unit of the version.
    pub(crate) fn longest_step(self) -> i64
        ensures { result ≡ longest_step self }
    {
        match self {
            Version::First => LONGEST_MINUTES,
            Version::Second => LONGEST_STEP,
        }
    }

    /// The option group of a document of the version, with its steps in seconds.
    pub(crate) fn in_seconds(self, alloc: Global, options: Options) -> Result<Options, Memory>
        requires { first_fault (options_faults_by (longest_step self) options) ≡ Ok tt }
        ensures { IfOk result (λ made. made ≡ in_seconds self options) }
    {
        match self {
            Version::First => from_minutes(alloc, options),
            Version::Second => Ok(options),
        }
    }
}

/// The option group with its minutes in seconds.
fn from_minutes(alloc: Global, options: Options) -> Result<Options, Memory>
    requires { first_fault (options_faults_by (longest_step Version.First) options) ≡ Ok tt }
    ensures { IfOk result (λ made. made ≡ in_seconds Version.First options) }
{
    let new_steps = seconds_of(alloc, options.new_steps.as_slice())?;
    let lapse_steps = seconds_of(alloc, options.lapse_steps.as_slice())?;
    let mut made = options;
    made.new_steps = new_steps;
    made.lapse_steps = lapse_steps;
    Ok(made)
}

/// Each step in seconds.
fn seconds_of(alloc: Global, minutes: &[i64]) -> Result<List<i64>, Memory>
    requires { AreMinutes minutes.now }
    ensures { IfOk result (λ made. made ≡ map seconds_of minutes.now) }
{
    let mut seconds = List::new(alloc);
    for step in minutes {
        seconds.push(*step * 60)?;
    }
    Ok(seconds)
}
