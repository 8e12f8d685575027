//! What each step on the table tells, and how views are cut and joined.

use crate::locked::{DeskValue, VaultValue};
use crate::view::{Kept, View};
use atomic_table::{Join, Play, Split};
use std::marker::PhantomData;

pub(crate) struct DrawsDesk;

impl<O, W, A, B> Play<Option<Kept<A, B>>, View<O, W, A, B>> for DrawsDesk {
    ghost use Rattle.turn.specs.Plays.{draws_desk};

    ghost then = { draws_desk };
}

pub(crate) struct DrawsVault;

impl<O, W, A, B> Play<Option<Kept<A, B>>, View<O, W, A, B>> for DrawsVault {
    ghost use Rattle.turn.specs.Plays.{draws_vault};

    ghost then = { draws_vault };
}

pub(crate) struct ServesDesk;

impl<O, W, A, B> Play<Option<Kept<A, B>>, View<O, W, A, B>> for ServesDesk {
    ghost use Rattle.turn.specs.Plays.{serves_desk};

    ghost then = { serves_desk };
}

pub(crate) struct ServesVault;

impl<O, W, A, B> Play<Option<Kept<A, B>>, View<O, W, A, B>> for ServesVault {
    ghost use Rattle.turn.specs.Plays.{serves_vault};

    ghost then = { serves_vault };
}

pub(crate) struct Comes;

impl<O, W, A, B> Play<Option<Kept<A, B>>, View<O, W, A, B>> for Comes {
    ghost use Rattle.turn.specs.Plays.{comes};

    ghost then = { comes };
}

pub(crate) struct ReadsDesk<A, B> {
    of: PhantomData<(A, B)>,
}

impl<A: DeskValue, B: VaultValue<A::Opening>> Play<
    Option<Kept<A, B>>,
    View<A::Opening, A::Work, A, B>,
> for ReadsDesk<A, B> {
    ghost use Rattle.turn.specs.Plays.{reads_desk};

    ghost then = { reads_desk A.Opening.meaning A.meaning B.meaning };
}

pub(crate) struct Records<A, B> {
    of: PhantomData<(A, B)>,
}

impl<A: DeskValue, B: VaultValue<A::Opening>> Play<
    Option<Kept<A, B>>,
    View<A::Opening, A::Work, A, B>,
> for Records<A, B> {
    ghost use Rattle.turn.specs.Plays.{records};

    ghost then = { records A.Opening.meaning A.meaning B.meaning };
}

pub(crate) struct SeesHorizon<A> {
    of: PhantomData<A>,
}

impl<A: DeskValue, B> Play<Option<Kept<A, B>>, View<A::Opening, A::Work, A, B>> for SeesHorizon<A> {
    ghost use Rattle.turn.specs.Plays.{sees_horizon};

    ghost then = { sees_horizon A.Opening.meaning A.meaning };
}

pub(crate) struct Settles<A> {
    of: PhantomData<A>,
}

impl<A: DeskValue, B> Play<Option<Kept<A, B>>, View<A::Opening, A::Work, A, B>> for Settles<A> {
    ghost use Rattle.turn.specs.Plays.{settles};

    ghost then = { settles A.Opening.meaning A.meaning };
}

pub(crate) struct ReadsVault<A, B> {
    of: PhantomData<(A, B)>,
}

impl<A: DeskValue, B: VaultValue<A::Opening>> Play<
    Option<Kept<A, B>>,
    View<A::Opening, A::Work, A, B>,
> for ReadsVault<A, B> {
    ghost use Rattle.turn.specs.Plays.{reads_vault};

    ghost then = { reads_vault A.Opening.meaning A.meaning B.meaning };
}

pub(crate) struct Raises<A, B> {
    of: PhantomData<(A, B)>,
}

impl<A: DeskValue, B: VaultValue<A::Opening>> Play<
    Option<Kept<A, B>>,
    View<A::Opening, A::Work, A, B>,
> for Raises<A, B> {
    ghost use Rattle.turn.specs.Plays.{raises};

    ghost then = { raises A.Opening.meaning A.meaning B.meaning };
}

/// A new seat, with the first number that is not dealt.
pub(crate) struct Deal;

impl<O, W, A, B> Split<View<O, W, A, B>> for Deal {
    ghost use Rattle.turn.specs.Views.{undealt, dealt};

    ghost left = { undealt };

    ghost right = { dealt };
}

/// What a seat has seen, for another.
pub(crate) struct Note;

impl<O, W, A, B> Split<View<O, W, A, B>> for Note {
    ghost use Rattle.turn.specs.Views.{note_of};

    ghost left = { λ v. v };

    ghost right = { note_of };
}

/// All that two seats have, in one.
pub(crate) struct Gather;

impl<O, W, A, B> Join<View<O, W, A, B>> for Gather {
    ghost use Rattle.turn.specs.Views.{joined, spent};

    ghost both = { joined };

    ghost spent = { spent };
}

/// A part of a seat's number, for a helper.
pub(crate) struct Help;

impl<O, W, A, B> Split<View<O, W, A, B>> for Help {
    ghost use Rattle.turn.specs.Views.{lending_view, lent_view};

    ghost left = { lending_view };

    ghost right = { lent_view };
}

impl<O, W, A, B> Join<View<O, W, A, B>> for Help {
    ghost use Rattle.turn.specs.Views.{returned_view, spent};

    ghost both = { returned_view };

    ghost spent = { spent };
}
