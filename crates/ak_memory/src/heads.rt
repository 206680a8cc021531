ghost use Rattle.std.specs.Prelude.{◌≡◌, Some, None, is_some, IfOk};
ghost use Rattle.std.specs.Option.{option_map};
ghost use Rattle.ak_keep.specs.HeadNumbers.{numbers_of};
ghost use Rattle.ak_memory.specs.Heads.{head_before, with_moments};
ghost use Rattle.ak_memory.specs.Versions.{at, both, with_current};

use crate::versions::Version;
use ak_base::{Head, Memory};
use ak_keep::Numbers;
use std::marker::Model;
use std::mem;

/// The head of a collection, seen as the one that is held now and the one that was held at the mark. To set the mark,
/// and to go back to it, copies none.
#[derive(Debug, Drop)]
pub(crate) struct MarkedHead {
    head: Option<Head>,
    was: HeadBefore,
}

/// The head that was held at the mark.
#[derive(Debug, Drop)]
pub(crate) enum HeadBefore {
    /// The one that is held now.
    Same,
    /// The one that is held now, with these in place of its own.
    Moments(Moments),
    /// This one, or none.
    Other(Option<Head>),
}

/// The moments and the usn of a head.
#[derive(Clone, Copy, Debug)]
pub(crate) struct Moments {
    pub moment: i64,
    pub schema: i64,
    pub usn: i64,
    pub last_sync: i64,
}

impl Model for MarkedHead {
    ghost use Rattle.std.specs.Prelude.{Option};
    ghost use Rattle.std.specs.Coded.{codes};
    ghost use Rattle.ak_base.specs.declared.heads.Head.{Head};
    ghost use Rattle.ak_memory.specs.Versions.{Versions, versions_code};

    ghost Value = { Versions (Option Head) };

    ghost coded = { versions_code (Prim.hlevel codes) };

    ghost use Rattle.ak_memory.specs.Heads.{head_before};

    ghost view = { λ marked. record { current = marked.head; mark = head_before marked.head marked.was } };
}

impl MarkedHead {
    /// No head.
    pub(crate) fn none() -> MarkedHead
        ensures { result ≡ both None }
    {
        MarkedHead {
            head: None,
            was: HeadBefore::Same,
        }
    }

    /// Whether a head is held.
    pub(crate) fn is_some(&self) -> bool
        ensures { result ≡ is_some self.now.current }
    {
        self.head.is_some()
    }

    /// A copy of the head that is held.
    pub(crate) fn copy(&self) -> Result<Option<Head>, Memory>
        ensures { IfOk result (λ head. head ≡ self.now.current) }
    {
        match &self.head {
            Some(head) => {
                let copy = head.copy()?;
                Ok(Some(copy))
            }
            None => Ok(None),
        }
    }

    /// The numbers of the head that is held. It takes no memory.
    pub(crate) fn numbers(&self) -> Option<Numbers>
        ensures { result ≡ option_map numbers_of self.now.current }
    {
        match &self.head {
            Some(head) => Some(Numbers::of(head)),
            None => None,
        }
    }

    /// Holds this head from now on. It takes no memory.
    pub(crate) fn set(&mut self, head: Head)
        ensures { self.new ≡ with_current (Some head) self.old }
    {
        match self.was {
            HeadBefore::Same => {
                let old = self.head.take();
                self.was = HeadBefore::Other(old);
            }
            HeadBefore::Moments(moments) => {
                set_moments(&mut self.head, moments);
                let old = self.head.take();
                self.was = HeadBefore::Other(old);
            }
            HeadBefore::Other(_) => {}
        }
        self.head = Some(head);
    }

    /// Sets these numbers of the head, if one is held. It takes no memory.
    pub(crate) fn set_moments(&mut self, moments: Moments)
        ensures { self.new ≡ with_current (with_moments moments self.old.current) self.old }
    {
        if let HeadBefore::Same = self.was {
            if let Some(head) = &self.head {
                self.was = HeadBefore::Moments(moments_of(head));
            }
        }
        set_moments(&mut self.head, moments);
    }

    /// The head of this version is held from now on, and is what a new mark leads back to. It takes no memory.
    pub(crate) fn settle(&mut self, version: Version)
        ensures { self.new ≡ both (at version self.old) }
    {
        let was = mem::replace(&mut self.was, HeadBefore::Same);
        match (version, was) {
            (Version::Mark, HeadBefore::Moments(moments)) => set_moments(&mut self.head, moments),
            (Version::Mark, HeadBefore::Other(head)) => self.head = head,
            _ => {}
        }
    }
}

/// The moments and the usn of the head.
fn moments_of(head: &Head) -> Moments
    ensures { with_moments result (Some head.now) ≡ Some head.now }
{
    Moments {
        moment: head.moment,
        schema: head.schema,
        usn: head.usn,
        last_sync: head.last_sync,
    }
}

/// Sets these numbers of the head, if there is one.
fn set_moments(held: &mut Option<Head>, moments: Moments)
    ensures { held.new ≡ with_moments moments held.old }
{
    if let Some(head) = held {
        head.moment = moments.moment;
        head.schema = moments.schema;
        head.usn = moments.usn;
        head.last_sync = moments.last_sync;
    }
}
