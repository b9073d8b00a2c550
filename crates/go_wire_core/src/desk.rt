//! Who answers requests.
ghost use Rattle.std.specs.Prelude.{◌≡◌};
ghost use Rattle.go_wire_core.specs.Requests.{IsFor};

use crate::reply::WireReply;
use crate::request::Request;
use std::sync::Wait;

/// Who answers the requests of a connection, one after another.
///
/// Contracts see a desk by two ghosts of its `impl`: `is_numbered`, whether its lines carry the number of a session, and `answers`, which
/// says of a desk, a request, a reply and the desk behind it what the desk's own clauses say. Nothing else asks a desk, so what `answers`
/// says of each request holds of a whole connection.
pub trait Desk {
    ghost use Rattle.std.specs.Prelude.{Bool};
    ghost use Rattle.go_wire_core.specs.declared.request.Request.{Request};
    ghost use Rattle.go_wire_core.specs.declared.reply.WireReply.{WireReply};

    // whether lines carry the number of a session
    ghost is_numbered: { Self → Bool };

    // asked this, the desk may answer so, and is then that desk
    ghost answers: { Self → Request → WireReply → Self → Type 0 };

    /// Whether lines carry the number of a session, as where one connection serves several. It stays as it is.
    fn numbered(&self) -> bool
        ensures { result ≡ is_numbered self.now };

    /// The reply to a request. The request has a session, 1 to 32, exactly where lines are numbered. A desk may wait; what it refuses, want of
    /// memory included, is a [`WireReply::Refused`].
    fn answer<H: Wait>(&mut self, rt: &H, request: Request) -> WireReply
        requires { IsFor (is_numbered self.old) request.session }
        ensures answers { answers self.old request result self.new }
        ensures numbered { is_numbered self.new ≡ is_numbered self.old };
}
