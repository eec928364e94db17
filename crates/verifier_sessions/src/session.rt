// One session as the table keeps it.
ghost use Rattle.std.specs.Prelude.{◌≡◌};
ghost use Rattle.verifier_sessions.specs.History.{is_kept};
ghost use Rattle.verifier_sessions.specs.Replies.{post_reply};
ghost use Rattle.verifier_sessions.specs.Stands.{stand_with};
ghost use Rattle.verifier_sessions.specs.code.Records.{posted, record_in};

use crate::event::{Reply, Stand};

/// How long a session is pending, in seconds.
pub const PENDING: u64 = 300;

/// How long a session is kept, in seconds.
pub const KEPT: u64 = 3_600;

/// How many refused posts close a session.
pub const REFUSALS: u8 = 8;

/// A session: the nonce and the moment of its opening, the posts that were refused while it was pending, at
/// most eight, and whether one was accepted.
#[derive(Drop)]
pub struct Session {
    pub nonce: String,
    pub opened: u64,
    pub refusals: u8,
    pub accepted: bool,
}

/// Whether something that was opened at a moment is not forgotten.
pub fn is_kept(now: u64, opened: u64) -> bool
    ensures { result ≡ is_kept now opened }
{
    now.saturating_sub(opened) < KEPT
}

impl Session {
    /// How the session stands.
    pub fn stand(&self, now: u64) -> Stand
        ensures { result ≡ stand_with now self.now.opened self.now.refusals self.now.accepted }
    {
        let refusals = self.refusals;
        if !is_kept(now, self.opened) {
            Stand::Unknown
        } else if refusals >= REFUSALS {
            Stand::Closed
        } else if self.accepted {
            Stand::Yes { refusals }
        } else if now.saturating_sub(self.opened) >= PENDING {
            Stand::Expired { refusals }
        } else {
            Stand::Pending { refusals }
        }
    }

    /// Takes a post: an accepted one turns the session, another one counts, where the session is pending.
    pub fn post(&mut self, now: u64, accepted: bool) -> Reply
        ensures reply { result
            ≡ post_reply accepted (stand_with now self.old.opened self.old.refusals self.old.accepted) }
        ensures session { record_in self.new ≡ posted now accepted (record_in self.old) }
    {
        let stand = self.stand(now);
        let Stand::Pending { refusals } = stand else {
            return Reply::Stands(stand);
        };
        if accepted {
            self.accepted = true;
            Reply::Turned
        } else {
            self.refusals = refusals + 1;
            Reply::Counted
        }
    }
}
