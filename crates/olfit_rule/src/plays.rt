//! The kinds of steps, and what each tells.
ghost use Rattle.olfit_rule.specs.Rule.{looked, peeked, found_root, stored_root, own_read, wrote, ended};

use crate::view::{Change, View};
use atomic_table::{Join, Play, Split};
use std::collections::LinkedList;
use std::marker::{Brand, PhantomData};

/// A reader loads a version.
pub(crate) struct Look;

impl Play<u64, View> for Look {
    ghost then = { looked };
}

/// A reader loads a word of the node that it reads.
pub(crate) struct Peek;

impl Play<u64, View> for Peek {
    ghost then = { peeked };
}

/// A reader loads the root word.
pub(crate) struct FindRoot;

impl Play<u64, View> for FindRoot {
    ghost then = { found_root };
}

/// The writer loads a word.
pub(crate) struct Own;

impl Play<u64, View> for Own {
    ghost then = { own_read };
}

/// The writer stores a word of a node that is latched then.
pub(crate) struct Write;

impl Play<u64, View> for Write {
    ghost then = { wrote };
}

/// The writer stores the root word.
pub(crate) struct StoreRoot;

impl Play<u64, View> for StoreRoot {
    ghost then = { stored_root };
}

/// Which changes of the map an unlatch makes.
pub trait Noted {
    ghost use Rattle.std.specs.Prelude.{List};
    ghost use Rattle.olfit_rule.specs.declared.view.Change.{Change};

    ghost changes: { List Change };
}

/// No change, where a proof picks no other.
impl Noted for Brand {
    ghost use Rattle.std.specs.Prelude.{[]};

    ghost changes = { [] };
}

/// The writer unlatches a node.
pub(crate) struct Unlatch<C> {
    changes: PhantomData<C>,
}

impl<C: Noted> Play<u64, View> for Unlatch<C> {
    ghost then = { ended C.changes };
}

/// A new reader, or a note for a meeting.
pub(crate) struct Reads;

impl Split<View> for Reads {
    ghost use Rattle.olfit_rule.specs.Rule.{reader_of};

    ghost left = { λ v. v };

    ghost right = { reader_of };
}

/// A note is taken in.
pub(crate) struct Tells;

impl Join<View> for Tells {
    ghost use Rattle.olfit_rule.specs.Rule.{informed, nobody};

    ghost both = { informed };

    ghost spent = { nobody };
}
