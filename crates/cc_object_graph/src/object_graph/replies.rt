//! What a command answers that is not refused.
ghost use Rattle.std.specs.Prelude.{◌≡◌, ◌<◌, ◌≤◌, false, length};
ghost use Rattle.cc_model.specs.Checks.{is_full, named_or_nothing, native_of, reflector_of, reply_if_taken};
ghost use Rattle.cc_model.specs.Graph.{objects_of};

use crate::object_graph::ObjectGraph;
use cc_model::{Command, Reply};
use cc_names::{Name, Reg};

/// The native that a reflector stands for; none where it is no reflector.
pub(super) fn native_of(content: Option<Name>) -> Option<Name>
    ensures { result ≡ native_of content }
{
    match content {
        Some(Name::Reflector(k)) => Some(Name::Native(k)),
        Some(Name::Native(_)) => None,
        Some(Name::Script(_)) => None,
        None => None,
    }
}

/// The reflector of a native; none where it is no native.
pub(super) fn reflector_of(content: Option<Name>) -> Option<Name>
    ensures { result ≡ reflector_of content }
{
    match content {
        Some(Name::Native(k)) => Some(Name::Reflector(k)),
        Some(Name::Script(_)) => None,
        Some(Name::Reflector(_)) => None,
        None => None,
    }
}

/// The reply that names what was read.
fn naming(content: Option<Name>) -> Reply
    ensures { result ≡ named_or_nothing content }
{
    match content {
        Some(name) => Reply::Named(name),
        None => Reply::Nothing,
    }
}

impl ObjectGraph {
    /// The reply to a command that is not refused; the census and `why` are answered apart.
    #[tactic(auto, unfolding(cc_model::specs::Checks::reply_if_taken))]
    pub(super) fn reply(&self, command: &Command) -> Reply
        requires natives { self.now.limits.natives ≤ 1000000 }
        requires scripts { self.now.limits.scripts ≤ 1000000 }
        requires room { is_full (objects_of self.now) command.now ≡ false }
        ensures { result ≡ reply_if_taken (objects_of self.now) command.now }
    {
        match *command {
            Command::Native(_, _) => Reply::Named(self.next_native()),
            Command::Script(_, _) => Reply::Named(self.next_script()),
            Command::WeakMap(_) => Reply::Named(self.next_script()),
            Command::Proxy(_, _) => Reply::Named(self.next_script()),
            Command::CopyNative(_, s) => naming(self.register(Reg::N(s))),
            Command::CopyScript(_, s) => naming(self.register(Reg::S(s))),
            Command::Get(_, s, i) => naming(self.slot_at(Reg::N(s), i)),
            Command::Move(_, _, s, j) => naming(self.slot_at(Reg::N(s), j)),
            Command::Take(_, s, i) => naming(self.slot_at(Reg::S(s), i)),
            Command::Wrap(_, s) => naming(reflector_of(self.register(Reg::N(s)))),
            Command::Unwrap(_, s) => naming(native_of(self.register(Reg::S(s)))),
            Command::GetEntry(_, m, k) => naming(self.value_at(m, k)),
            Command::Expose(s, i) => naming(self.slot_at(Reg::N(s), i)),
            Command::Weak(_, s) => naming(self.register(Reg::N(s))),
            _ => Reply::Done,
        }
    }
}
