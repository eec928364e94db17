// The table of sessions.
ghost use Rattle.std.specs.Prelude.{◌≡◌, [], ◌∷◌, ◌++◌, ◌||◌, IfOk, OnOk, OnErr, Some, is_some, IsSome};
ghost use Rattle.std.specs.Prelude.{max, false, string_cmp, if◌then◌else◌, ◌<◌, ◌≤◌, ℕ, List, drop};
ghost use Rattle.std.specs.Option.{option_map};
ghost use Rattle.std.specs.VecDeque.{deque_len, deque_capacity};
ghost use Rattle.std.specs.BTreeMap.{get_by_text, IsOrdered};
ghost use Rattle.std.specs.Str.{bytes_eq};
ghost use Rattle.verifier_sessions.specs.History.{Text, Open, History, latest, rule_of};
ghost use Rattle.verifier_sessions.specs.Stands.{stand, nonce};
ghost use Rattle.verifier_sessions.specs.declared.table.Opening.{Opening};
ghost use Rattle.verifier_sessions.specs.Replies.{reply_to, post_reply, after, replies};
ghost use Rattle.verifier_sessions.specs.Table.{
  StandsFor,
  StandsAfterSome,
  event_of,
  stand_in,
  nonce_in,
  IsOpening,
};
ghost use Rattle.verifier_sessions.specs.code.Records.{
  held,
  record_stand,
  kept_record,
  kept_moment,
  fresh,
  posted,
};
ghost use Rattle.verifier_sessions.specs.code.Queue.{
  Adds,
  FitsQueue,
  is_full,
  is_oldest_kept,
  without_oldest,
};

use crate::error::NoMemory;
use crate::event::{Event, OpenRule, Reply, Stand};
use crate::events::Events;
use crate::kept::Kept;
use crate::session::{Session, is_kept};
use std::alloc::Global;
use std::collections::{BTreeMap, VecDeque};

/// The most sessions that are kept, and the most that are in the table.
const SESSIONS: usize = 1_024;

/// The sessions of a site. A session is found by its id, and the moment of an opening by its nonce. The
/// openings stand in their order, at most 1,024, and every session and nonce is that of one of them.
///
/// A session that is forgotten may still be here. Where 1,024 openings are here and the oldest is forgotten,
/// a new one takes its place.
#[derive(Drop)]
pub struct Table {
    alloc: Global,
    latest: u64,
    sessions: BTreeMap<String, Session>,
    nonces: BTreeMap<String, u64>,
    openings: VecDeque<Opening>,
}

/// An opening: its moment, and what it brought.
#[derive(Drop)]
struct Opening {
    opened: u64,
    id: String,
    nonce: String,
}

impl Table {
    /// A table without sessions, whose latest moment is 0.
    pub fn new(alloc: Global) -> Table
        ensures { StandsFor result [] }
    {
        Table {
            alloc,
            latest: 0,
            sessions: BTreeMap::new(alloc),
            nonces: BTreeMap::new(alloc),
            openings: VecDeque::new(alloc),
        }
    }

    /// The greatest moment of an event, in seconds.
    pub fn latest(&self) -> u64
        ensures { (h : History) → StandsFor self.now h → result ≡ latest h }
    {
        self.latest
    }

    /// How an id stands at a moment.
    pub fn stand(&self, moment: u64, id: &str) -> Stand
        ensures history { (h : History) → StandsFor self.now h → result ≡ stand h moment id.now }
        ensures held { result ≡ stand_in self.now moment id.now }
    {
        let now = moment.max(self.latest);
        match self.sessions.get(id) {
            Some(session) => session.stand(now),
            None => Stand::Unknown,
        }
    }

    /// The nonce of an id, and none exactly where the id is unknown.
    pub fn nonce(&self, moment: u64, id: &str) -> Option<&str>
        ensures history { (h : History) → StandsFor self.now h →
            option_map (λ n. n.now) result ≡ nonce h moment id.now }
        ensures held { option_map (λ n. n.now) result ≡ nonce_in self.now moment id.now }
    {
        let now = moment.max(self.latest);
        match self.sessions.get(id) {
            Some(session) if is_kept(now, session.opened) => Some(session.nonce.as_str()),
            _ => None,
        }
    }

    /// The rule by which an opening would be refused, and none where it would open.
    pub fn refuses(&self, moment: u64, id: &str, nonce: &str) -> Option<OpenRule>
        ensures { (h : History) → StandsFor self.now h → result ≡ rule_of h moment id.now nonce.now }
    {
        let now = moment.max(self.latest);
        if self.is_full(now) {
            Some(OpenRule::Full)
        } else if self.is_drawn(now, id, nonce) {
            Some(OpenRule::DrawInUse)
        } else {
            None
        }
    }

    /// Serves an event. Only an opening takes memory, and it does before it changes anything.
    pub fn apply(&mut self, moment: u64, event: Event) -> Result<Reply, NoMemory>
        ensures reply { (h : History) → StandsFor self.old h →
            IfOk result (λ r. r ≡ reply_to h moment (event_of event.entry)) }
        ensures done { (h : History) → StandsFor self.old h →
            OnOk result (StandsFor self.new ((moment, event_of event.entry) ∷ h)) }
        ensures out_of_memory { (h : History) → StandsFor self.old h → OnErr result (StandsFor self.new h) }
        ensures opening_only { OnErr result (IsOpening (event_of event.entry)) }
    {
        match event {
            Event::Open { id, nonce } => self.open(moment, id, nonce),
            Event::Post { id, yes } => Ok(self.post(moment, id, yes)),
            Event::Look { id } => Ok(self.look(moment, id)),
        }
    }

    /// Serves events in their order. The room for the replies is taken first. Where an opening runs out of
    /// memory, the events before it are done.
    pub fn run(&mut self, events: &Events) -> Result<Vec<Reply>, NoMemory>
        ensures replies { (h : History) → StandsFor self.old h →
            IfOk result (λ rs. rs.items ≡ replies h events.now) }
        ensures done { (h : History) → StandsFor self.old h →
            OnOk result (StandsFor self.new (after h events.now)) }
        ensures out_of_memory { (h : History) → StandsFor self.old h →
            OnErr result (StandsAfterSome self.new h events.now) }
    {
        let mut replies = Vec::new(self.alloc);
        replies.reserve(events.entries.len())?;
        for entry in &events.entries {
            let reply = self.apply(entry.moment, entry.event())?;
            replies.push(reply)?;
        }
        Ok(replies)
    }

    fn look(&mut self, moment: u64, id: &str) -> Reply
        ensures table { self.new ≡ record self.old { latest = max moment self.old.latest } }
        ensures reply { result ≡ Reply.Stands (stand_in self.old moment id.now) }
    {
        self.latest = moment.max(self.latest);
        Reply::Stands(self.stand(moment, id))
    }

    fn post(&mut self, moment: u64, id: &str, accepted: bool) -> Reply
        ensures latest { self.new.latest ≡ max moment self.old.latest }
        ensures nonces { self.new.nonces ≡ self.old.nonces }
        ensures openings { self.new.openings ≡ self.old.openings }
        ensures ordered { IsOrdered string_cmp self.old.sessions → IsOrdered string_cmp self.new.sessions }
        ensures sessions { (q : Text) → held self.new.sessions q ≡
            (if bytes_eq id.now q
            then option_map (posted (max moment self.old.latest) accepted) (held self.old.sessions q)
            else held self.old.sessions q) }
        ensures reply { result ≡ post_reply accepted (stand_in self.old moment id.now) }
    {
        let now = moment.max(self.latest);
        self.latest = now;
        match self.sessions.get_mut(id) {
            Some(session) => session.post(now, accepted),
            None => Reply::Stands(Stand::Unknown),
        }
    }

    fn open(&mut self, moment: u64, id: &str, nonce: &str) -> Result<Reply, NoMemory>
        ensures reply { (h : History) → StandsFor self.old h →
            IfOk result (λ r. r ≡ reply_to h moment (Open id.now nonce.now)) }
        ensures done { (h : History) → StandsFor self.old h →
            OnOk result (StandsFor self.new ((moment, Open id.now nonce.now) ∷ h)) }
        ensures out_of_memory { (h : History) → StandsFor self.old h → OnErr result (StandsFor self.new h) }
    {
        let now = moment.max(self.latest);
        match self.refuses(moment, id, nonce) {
            None => {
                self.begin(now, id, nonce)?;
                self.latest = now;
                Ok(Reply::Opened)
            }
            Some(OpenRule::Full) => {
                self.latest = now;
                Ok(Reply::Full)
            }
            Some(OpenRule::DrawInUse) => {
                let in_use = Kept::new(self.alloc, self.in_use(now, id, nonce))?;
                self.latest = now;
                Ok(Reply::DrawInUse(in_use))
            }
        }
    }

    /// The id where a session that is kept has it, and else the nonce.
    fn in_use<'a>(&self, now: u64, id: &'a str, nonce: &'a str) -> &'a str
        ensures { result.now
            ≡ (if is_some (kept_record now (held self.now.sessions id.now)) then id.now else nonce.now) }
    {
        if has_session(&self.sessions, now, id) {
            id
        } else {
            nonce
        }
    }

    /// Begins a session. All memory is taken before the oldest opening leaves; until then the maps may have
    /// 1,025 entries. Out of memory, none was begun.
    fn begin(&mut self, now: u64, id: &str, nonce: &str) -> Result<(), NoMemory>
        ensures latest { self.new.latest ≡ self.old.latest }
        ensures sessions { OnOk result ((q : Text) → kept_record now (held self.new.sessions q) ≡
            kept_record now
            (if bytes_eq id.now q then Some (fresh nonce.now now) else held self.old.sessions q)) }
        ensures nonces { OnOk result ((q : Text) → kept_moment now (get_by_text self.new.nonces q) ≡
            kept_moment now (if bytes_eq nonce.now q then Some now else get_by_text self.old.nonces q)) }
        ensures openings { OnOk result (Adds now self.old.openings.items self.new.openings.items) }
        ensures fits { OnOk result (is_full now self.old.openings.items ≡ false → self.old.latest ≤ now →
            FitsQueue self.old.latest self.old.sessions self.old.nonces self.old.openings.items →
            FitsQueue now self.new.sessions self.new.nonces self.new.openings.items) }
        ensures out_of_memory { OnErr result (
            (q : Text) → held self.new.sessions q ≡ held self.old.sessions q) }
        ensures nonces_stay { OnErr result (
            (q : Text) → get_by_text self.new.nonces q ≡ get_by_text self.old.nonces q) }
        ensures openings_stay { OnErr result (self.new.openings.items ≡ self.old.openings.items) }
        ensures ordered { OnErr result (IsOrdered string_cmp self.old.sessions →
            IsOrdered string_cmp self.new.sessions) }
        ensures nonces_ordered { OnErr result (IsOrdered string_cmp self.old.nonces →
            IsOrdered string_cmp self.new.nonces) }
    {
        let session = Session {
            nonce: String::from_str(self.alloc, nonce)?,
            opened: now,
            refusals: 0,
            accepted: false,
        };
        let opening = Opening {
            opened: now,
            id: String::from_str(self.alloc, id)?,
            nonce: String::from_str(self.alloc, nonce)?,
        };
        let own = String::from_str(self.alloc, id)?;
        let key = String::from_str(self.alloc, nonce)?;
        reserve_one(&mut self.openings)?;
        let before = self.nonces.insert(key, now)?;
        match self.sessions.insert(own, session) {
            Ok(_) => {
                self.make_room(now);
                self.openings.push_back_reserved(opening);
                Ok(())
            }
            Err(_) => {
                self.restore(nonce, before);
                Err(NoMemory)
            }
        }
    }

    /// Takes out the oldest opening where 1,024 are there.
    fn make_room(&mut self, now: u64)
        ensures latest { self.new.latest ≡ self.old.latest }
        ensures sessions { (q : Text) →
            kept_record now (held self.new.sessions q) ≡ kept_record now (held self.old.sessions q) }
        ensures nonces { (q : Text) →
            kept_moment now (get_by_text self.new.nonces q)
            ≡ kept_moment now (get_by_text self.old.nonces q) }
        ensures openings { self.new.openings.items ≡ without_oldest self.old.openings.items }
        ensures room { (deque_len self.old.openings < 1024 →
            deque_len self.old.openings < deque_capacity self.old.openings) →
            deque_len self.new.openings < deque_capacity self.new.openings }
        ensures fits { (top : ℕ) (later : List Opening) → is_full now self.old.openings.items ≡ false →
            FitsQueue top self.old.sessions self.old.nonces (self.old.openings.items ++ later) →
            FitsQueue top self.new.sessions self.new.nonces (self.new.openings.items ++ later) }
    {
        if self.openings.len() >= SESSIONS {
            self.forget_oldest(now);
        }
    }

    /// Takes out the oldest opening, and its session and nonce where they are forgotten.
    fn forget_oldest(&mut self, now: u64)
        ensures latest { self.new.latest ≡ self.old.latest }
        ensures sessions { (q : Text) →
            kept_record now (held self.new.sessions q) ≡ kept_record now (held self.old.sessions q) }
        ensures nonces { (q : Text) →
            kept_moment now (get_by_text self.new.nonces q)
            ≡ kept_moment now (get_by_text self.old.nonces q) }
        ensures openings { self.new.openings.items ≡ drop 1 self.old.openings.items }
        ensures capacity { deque_capacity self.new.openings ≡ deque_capacity self.old.openings }
        ensures fits { (top : ℕ) (later : List Opening) → is_oldest_kept now self.old.openings.items ≡ false →
            FitsQueue top self.old.sessions self.old.nonces (self.old.openings.items ++ later) →
            FitsQueue top self.new.sessions self.new.nonces (self.new.openings.items ++ later) }
    {
        if let Some(oldest) = self.openings.pop_front() {
            forget_session(&mut self.sessions, now, oldest.id.as_str());
            forget_nonce(&mut self.nonces, now, oldest.nonce.as_str());
        }
    }

    /// Puts back what was at a nonce.
    fn restore(&mut self, nonce: &str, before: Option<u64>)
        ensures latest { self.new.latest ≡ self.old.latest }
        ensures sessions { self.new.sessions ≡ self.old.sessions }
        ensures openings { self.new.openings ≡ self.old.openings }
        ensures ordered { IsOrdered string_cmp self.old.nonces → IsOrdered string_cmp self.new.nonces }
        ensures nonces { IsSome (get_by_text self.old.nonces nonce.now) → (q : Text) →
            get_by_text self.new.nonces q ≡
            (if bytes_eq nonce.now q then before else get_by_text self.old.nonces q) }
    {
        match before {
            None => {
                self.nonces.remove(nonce);
            }
            Some(opened) => {
                if let Some(place) = self.nonces.get_mut(nonce) {
                    *place = opened;
                }
            }
        }
    }

    /// Whether 1,024 sessions are kept. Where the oldest opening is, all are.
    fn is_full(&self, now: u64) -> bool
        ensures { result ≡ is_full now self.now.openings.items }
    {
        self.openings.len() >= SESSIONS
            && self
                .openings
                .front()
                .is_some_and(|oldest| is_kept(now, oldest.opened))
    }

    fn is_drawn(&self, now: u64, id: &str, nonce: &str) -> bool
        ensures { result ≡ (is_some (kept_record now (held self.now.sessions id.now))
            || is_some (kept_moment now (get_by_text self.now.nonces nonce.now))) }
    {
        has_session(&self.sessions, now, id) || has_opening(&self.nonces, now, nonce)
    }
}

/// Takes the memory for one opening more, where fewer than 1,024 are there.
fn reserve_one(openings: &mut VecDeque<Opening>) -> Result<(), NoMemory>
    ensures items { openings.new.items ≡ openings.old.items }
    ensures len { deque_len openings.new ≡ deque_len openings.old }
    ensures room { OnOk result (deque_len openings.new < 1024 →
        deque_len openings.new < deque_capacity openings.new) }
{
    if openings.len() < SESSIONS {
        openings.reserve(1)?;
    }
    Ok(())
}

/// Whether a session that is kept has the id.
fn has_session(sessions: &BTreeMap<String, Session>, now: u64, id: &str) -> bool
    ensures { result ≡ is_some (kept_record now (held sessions.now id.now)) }
{
    sessions
        .get(id)
        .is_some_and(|session| is_kept(now, session.opened))
}

/// Whether a session that is kept has the nonce.
fn has_opening(nonces: &BTreeMap<String, u64>, now: u64, nonce: &str) -> bool
    ensures { result ≡ is_some (kept_moment now (get_by_text nonces.now nonce.now)) }
{
    nonces
        .get(nonce)
        .is_some_and(|opened| is_kept(now, *opened))
}

/// Takes out the session of an id, where it is forgotten.
fn forget_session(sessions: &mut BTreeMap<String, Session>, now: u64, id: &str)
    ensures sessions { (q : Text) → held sessions.new q ≡
        (if bytes_eq id.now q then kept_record now (held sessions.old q) else held sessions.old q) }
    ensures ordered { IsOrdered string_cmp sessions.old → IsOrdered string_cmp sessions.new }
{
    if !has_session(sessions, now, id) {
        sessions.remove(id);
    }
}

/// Takes out a nonce, where it is forgotten.
fn forget_nonce(nonces: &mut BTreeMap<String, u64>, now: u64, nonce: &str)
    ensures nonces { (q : Text) → get_by_text nonces.new q ≡
        (if bytes_eq nonce.now q then kept_moment now (get_by_text nonces.old q)
        else get_by_text nonces.old q) }
    ensures ordered { IsOrdered string_cmp nonces.old → IsOrdered string_cmp nonces.new }
{
    if !has_opening(nonces, now, nonce) {
        nonces.remove(nonce);
    }
}
