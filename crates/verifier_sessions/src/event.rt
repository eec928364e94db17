// What happens to sessions, how they stand, and what is answered.
use crate::kept::Kept;

/// What a peer asks of a session. Ids and nonces are compared byte by byte.
#[derive(Clone, Copy, Drop)]
pub enum Event<'a> {
    /// A session is opened under a new id, with a new nonce.
    Open { id: &'a str, nonce: &'a str },
    /// A response is posted to a session, and was accepted or not.
    Post { id: &'a str, yes: bool },
    /// The session's state is asked.
    Look { id: &'a str },
}

/// How an id stands at a moment. `refusals` counts the posts that were refused while the session was pending.
#[derive(Clone, Copy, PartialEq, Eq, Debug, Drop)]
pub enum Stand {
    /// No session, or one that is forgotten.
    Unknown,
    /// The session waits for a response.
    Pending { refusals: u8 },
    /// A post was accepted.
    Yes { refusals: u8 },
    /// Eight posts were refused.
    Closed,
    /// No post was accepted in time.
    Expired { refusals: u8 },
}

/// What is answered to an event.
#[derive(Drop)]
pub enum Reply {
    /// The session is open, and pending.
    Opened,
    /// 1,024 sessions are kept already.
    Full,
    /// A session that is kept has the id, or else the nonce: the text that it has.
    DrawInUse(Kept),
    /// The post was accepted, and the session is yes from now on.
    Turned,
    /// The post was refused, and counts.
    Counted,
    /// How the session stands. The event changed nothing but the latest moment.
    Stands(Stand),
}

/// Why a session cannot be opened.
#[derive(Clone, Copy, PartialEq, Eq, Debug, Drop)]
pub enum OpenRule {
    /// 1,024 sessions are kept already.
    Full,
    /// A session that is kept has the id or the nonce.
    DrawInUse,
}
