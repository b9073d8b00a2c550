//! What a daemon tells of itself on standard error: each of it once.
ghost use Rattle.std.specs.Prelude.{◌≡◌};
ghost use Rattle.govisd_service.specs.Notices.{notice_by, notice_in, notice_of_events};

use go_path_core::text_core::Rule;
use go_wire_core::WireReply;

/// What a reply shows of the daemon, for which more memory or a new start helps.
#[derive(Clone, Copy, Debug, PartialEq, Eq)]
pub enum Notice {
    /// A session was refused since 32 modules are taken, of which nobody holds one: O4.
    Modules,
    /// Seven eighths of the history are used.
    Filling,
    /// The history is full: H1.
    History,
    /// A build found no memory, or no worker: M0.
    Memory,
}

/// Who is told.
pub trait Tells {
    /// Tells it, if it was not told before.
    fn tell(&self, notice: Notice);
}

impl Notice {
    /// The line that tells it.
    pub(crate) fn line(self) -> &'static str {
        match self {
            Notice::Modules => {
                "govisd: O4: 32 modules are taken, also such as nobody holds, and stay so until a new start\n"
            }
            Notice::Filling => {
                "govisd: 7/8 of the history are used: once it is full nothing is opened or built until a new start\n"
            }
            Notice::History => {
                "govisd: H1: the history is full: nothing is opened or built until a new start\n"
            }
            Notice::Memory => "govisd: M0: a build found no memory\n",
        }
    }
}

/// So many events are seven eighths of a history.
const MANY_EVENTS: usize = 917_504;

/// What the number of events shows after a build.
pub(crate) fn notice_of_events(events: usize) -> Option<Notice>
    ensures { result ≡ notice_of_events events }
{
    if events >= MANY_EVENTS {
        Some(Notice::Filling)
    } else {
        None
    }
}

// What the refusal by a rule shows, where a build was refused or another request.
fn notice_by(is_build: bool, rule: Rule) -> Option<Notice>
    ensures { result ≡ notice_by is_build rule }
{
    match rule {
        Rule::O4 => Some(Notice::Modules),
        Rule::H1 => Some(Notice::History),
        Rule::M0 => { if is_build { Some(Notice::Memory) } else { None } }
        _ => None,
    }
}

/// What a reply to a build or to another request shows, where a session of its own asks alone: as at most 32 connections are served, one that asks for a
/// session is refused by O4 only where another module is taken that nobody holds.
pub(crate) fn notice_in(is_build: bool, reply: &WireReply) -> Option<Notice>
    ensures { result ≡ notice_in is_build reply.now }
{
    match reply {
        WireReply::Refused { rule } => notice_by(is_build, *rule),
        _ => None,
    }
}
