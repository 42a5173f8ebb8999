// Which changes are owed to a page.
ghost use Rattle.std.specs.Prelude.{◌≡◌, nat_le};
ghost use Rattle.xor_records.specs.Replay.{only_one};

use crate::Head;

/// Whether a change is owed to its page, whose image has this stamp (0 where there is no image): its
/// transaction has ended, or its stamp is at most the image's, and not both.
pub fn is_owed(head: &Head, ended: bool, stamp: u64) -> bool
    ensures { result ≡ only_one ended (nat_le head.now.stamp stamp) }
{
    ended != (head.stamp <= stamp)
}
