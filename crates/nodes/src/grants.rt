// The grants of a slot, as a set that grows one transmission at a time.
ghost use Rattle.nodes.specs.Network.{Within};
ghost use Rattle.nodes.specs.Grants.{Fresh, Asked, Grown};

use crate::mask::{has, only, row_mask};
use trade::Transmission;

// The nodes that send, those that receive, those that a sender disturbs, and those that a receiver disturbs when it acknowledges. Each is a
// mask of nodes.
#[derive(Clone, Copy)]
pub struct GrantSet {
    pub senders: u64,
    pub receivers: u64,
    pub disturbed: u64,
    pub answered: u64,
}

impl GrantSet {
    // No grants.
    pub fn empty() -> Self
        ensures { Fresh result }
    {
        GrantSet {
            senders: 0,
            receivers: 0,
            disturbed: 0,
            answered: 0,
        }
    }

    // Whether a transmission conflicts with one of the grants.
    pub fn clashes(self, rows: &[u8], t: Transmission) -> bool
        requires { Within rows.now t }
        ensures { Asked rows.now self t result }
    {
        has(self.senders | self.receivers | self.answered, t.sender)
            | has(self.senders | self.receivers | self.disturbed, t.receiver)
            | (row_mask(rows, t.sender) & self.receivers != 0)
            | (row_mask(rows, t.receiver) & self.senders != 0)
    }

    // The grants and one more.
    pub fn with(self, rows: &[u8], t: Transmission) -> Self
        requires { Within rows.now t }
        ensures { Grown rows.now self t result }
    {
        GrantSet {
            senders: self.senders | only(t.sender),
            receivers: self.receivers | only(t.receiver),
            disturbed: self.disturbed | row_mask(rows, t.sender),
            answered: self.answered | row_mask(rows, t.receiver),
        }
    }
}
