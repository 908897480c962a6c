//! The sessions that go on, and those that ended last.

ghost use Rattle.std.specs.Prelude.{◌≤◌};
ghost use Rattle.std.specs.BTreeMap.{btree_map_len};
ghost use Rattle.std.specs.VecDeque.{deque_len};

use crate::ending::Ending;
use jt_session::Report;
use std::alloc::{AllocError, Global};
use std::collections::{BTreeMap, VecDeque};
use std::net::SocketAddr;

/// So many sessions that ended are kept (this project's own).
pub const ENDED_LIMIT: usize = 1_000;

/// So many sessions that go on are kept: as many as a service serves at most (this project's own).
pub const OPEN_LIMIT: usize = 10_000;

/// A session that goes on. Moments are in seconds since 1970.
#[derive(Clone, Copy)]
pub struct OpenSession {
    pub session: u32,
    pub peer: Option<SocketAddr>,
    pub since: u64,
    /// When something came last that the hub was asked for.
    pub heard: u64,
    /// The twenty digits of the phone that was let in on it, where one was.
    pub digits: Option<[u8; 10]>,
}

/// A session on which a phone was let in, and that ended. Moments are in seconds since 1970.
#[derive(Clone, Copy)]
pub struct EndedSession {
    pub peer: Option<SocketAddr>,
    pub digits: [u8; 10],
    pub since: u64,
    pub heard: u64,
    pub at: u64,
    pub ending: Ending,
    pub report: Report,
}

/// The sessions that go on, and those that ended last.
#[derive(Drop)]
pub struct Sessions {
    going: BTreeMap<u32, OpenSession>,
    ended: VecDeque<EndedSession>,
    ghost most_open: { btree_map_len going ≤ 10000 },
    ghost most_ended: { deque_len ended ≤ 1000 },
}

impl Sessions {
    /// None so far. The memory for those that ended is taken now.
    pub fn new(alloc: Global) -> Result<Sessions, AllocError> {
        Ok(Sessions {
            going: BTreeMap::new(alloc),
            ended: VecDeque::with_capacity(alloc, ENDED_LIMIT)?,
        })
    }

    /// None goes on any more.
    pub fn clear(&mut self) {
        self.going.clear();
    }

    /// How many go on.
    pub fn count(&self) -> usize {
        self.going.len()
    }

    /// A session began. False means that it is not kept, since memory was refused or there are too many.
    pub fn begin(&mut self, session: u32, peer: Option<SocketAddr>, now: u64) -> bool {
        if self.going.len() >= OPEN_LIMIT {
            return false;
        }
        let begun = OpenSession {
            session,
            peer,
            since: now,
            heard: now,
            digits: None,
        };
        self.going.insert(session, begun).is_ok()
    }

    /// Something came on a session.
    pub fn hear(&mut self, session: u32, now: u64) {
        if let Some(open) = self.going.get_mut(&session) {
            open.heard = now;
        }
    }

    /// A phone was let in on a session.
    pub fn let_in(&mut self, session: u32, digits: [u8; 10]) {
        if let Some(open) = self.going.get_mut(&session) {
            open.digits = Some(digits);
        }
    }

    /// The session of a number, where it goes on.
    pub fn get(&self, session: u32) -> Option<OpenSession> {
        self.going.get(&session).copied()
    }

    /// A session ended; what is known of it.
    pub fn take(&mut self, session: u32) -> Option<OpenSession> {
        self.going.remove(&session)
    }

    /// Keeps a session that ended, in place of the oldest one where there are too many.
    pub fn keep(&mut self, ended: EndedSession) {
        if self.ended.len() >= ENDED_LIMIT {
            let _ = self.ended.pop_front();
        }
        let _ = self.ended.push_back(ended);
    }

    /// At most so many of those that go on, behind a number, in order of their numbers.
    pub fn open_behind(
        &self,
        alloc: Global,
        after: u32,
        limit: usize,
    ) -> Result<Vec<OpenSession>, AllocError> {
        let mut list = Vec::new(alloc);
        for open in self.going.values() {
            if open.session > after && list.len() < limit {
                list.push(*open)?;
            }
        }
        Ok(list)
    }

    /// Those that ended and are kept, the oldest first.
    pub fn ended(&self, alloc: Global) -> Result<Vec<EndedSession>, AllocError> {
        self.ended.iter().copied().collect(alloc)
    }
}
