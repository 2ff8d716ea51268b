//! A step of the graph beside the names that have ended.
ghost use Rattle.std.specs.Prelude.{◌≡◌, ◌≤◌, IfOk, IsTrue, OnOk};
ghost use Rattle.cc_model.specs.Checks.{named_or_nothing};
ghost use Rattle.cc_model.specs.Lawful.{noted_in, reply_with, step_with};
ghost use Rattle.cc_model.specs.Ranges.{in_range};
ghost use Rattle.cc_model.specs.WellMade.{IsWellMade};

use crate::ended::Ended;
use cc_model::{Command, Reply};
use cc_names::{Name, NoMemory, WeakNo};
use cc_object_graph::ObjectGraph;

/// Does a command in the graph, and answers its reply. What has ended decides what a weak register gives, and nothing else.
///
/// After `NoMemory` the graph is only let go.
pub(crate) fn step(
    graph: &mut ObjectGraph,
    ended: &Ended,
    command: Command,
) -> Result<Reply, NoMemory>
    requires well_made { IsWellMade graph.old }
    requires limits { (graph.old.limits.natives ≤ 1000000) × (graph.old.limits.scripts ≤ 1000000) }
    requires in_range { IsTrue (in_range command) }
    ensures reply { IfOk result (λ r. r ≡ reply_with ended.now graph.old command) }
    ensures step { OnOk result (graph.new ≡ step_with ended.now graph.old command) }
{
    match command {
        Command::Deref(d, w) => {
            let content = noted(graph, ended, w);
            graph.hold_noted(d, content);
            Ok(named_or_nothing(content))
        }
        _ => graph.step(&command),
    }
}

/// What a weak register gives: the native that it notes, where that has not ended.
fn noted(graph: &ObjectGraph, ended: &Ended, w: WeakNo) -> Option<Name>
    ensures { result ≡ noted_in ended.now graph.now w }
{
    match graph.noted(w) {
        Some(name) if !ended.has(&name) => Some(name),
        _ => None,
    }
}

/// The reply that names an object, or says that there is none.
fn named_or_nothing(content: Option<Name>) -> Reply
    ensures { result ≡ named_or_nothing content }
{
    match content {
        Some(name) => Reply::Named(name),
        None => Reply::Nothing,
    }
}
