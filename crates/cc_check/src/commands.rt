//! What kinds of commands there are.
ghost use Rattle.std.specs.Prelude.{◌≡◌, ◌||◌, IsTrue, List};
ghost use Rattle.cc_names.specs.declared.name.Name.{Name as TheName};
ghost use Rattle.cc_model.specs.Graph as graph;
ghost use Rattle.cc_model.specs.Lawful.{collects, is_gc, may_free, may_unlink, may_want_memory, runs_allowed, runs_units, state_of, step_with};
ghost use Rattle.cc_model.specs.Mutating.{reads_weakly};
ghost use Rattle.cc_check.specs.Standing.{lists};

use cc_listed::Listed;
use cc_model::Command;
use cc_names::{Name, Reg};
use cc_object_graph::ObjectGraph;

/// Whether it collects script objects, at once or in units.
pub(crate) fn is_gc(command: Command) -> bool
    ensures { result ≡ is_gc command }
{
    match command {
        Command::Gc | Command::Mark(_) => true,
        _ => false,
    }
}

/// Whether it runs units of a collection.
pub(crate) fn runs_units(command: Command) -> bool
    ensures { result ≡ runs_units command }
{
    match command {
        Command::Slice(_) | Command::Collect => true,
        _ => false,
    }
}

/// Whether it collects: units of a collection, script objects at once, or units of a marking of them.
fn collects(command: Command) -> bool
    ensures { result ≡ collects command }
{
    runs_units(command) || is_gc(command)
}

/// Whether it may free an object: a command that collects any, another a native alone.
pub(crate) fn may_free(command: Command, name: Name) -> bool
    ensures { result ≡ may_free command name }
{
    match name {
        Name::Native(_) => true,
        _ => collects(command),
    }
}

/// Whether it may unlink an object: a command that collects natives, another none.
pub(crate) fn may_unlink(command: Command, name: Name) -> bool
    ensures { result ≡ may_unlink command name }
{
    match name {
        Name::Native(_) => collects(command),
        _ => false,
    }
}

/// How many rising runs the numbers of unlinked natives may make.
pub(crate) fn runs_allowed(command: Command) -> u32
    ensures { result ≡ runs_allowed command }
{
    match command {
        Command::Collect => 2,
        _ => 1,
    }
}

/// Whether it leaves the graph as it is, whatever it holds.
pub(crate) fn leaves_graph(command: Command) -> bool
    ensures { IsTrue result → (ended : List TheName) (g : graph.Graph) → step_with ended g command ≡ g }
{
    match command {
        Command::Forget | Command::Slice(_) | Command::Collect | Command::Gc | Command::Mark(_) =>
            true,
        _ => false,
    }
}

/// Whether it may want memory, where the graph does not refuse it: `wset` for a new entry alone, `wrap` where the reflector is not
/// listed.
pub(crate) fn may_want_memory(graph: &ObjectGraph, listed: &Listed, command: Command) -> bool
    ensures { (ended : List TheName) → result ≡ may_want_memory (state_of graph.now listed.now ended) command }
{
    match command {
        Command::Native(_, _)
        | Command::Script(_, _)
        | Command::WeakMap(_)
        | Command::Proxy(_, _)
        | Command::Why(_)
        | Command::Slice(_)
        | Command::Collect => true,
        Command::SetEntry(the_map, key, Some(_)) => graph.value_at(the_map, key).is_none(),
        Command::Wrap(_, source) => match graph.register(Reg::N(source)) {
            Some(Name::Native(number)) => !listed.has(&Name::Reflector(number)),
            _ => true,
        },
        _ => false,
    }
}

/// Whether a weak register was read, once the command is done.
pub(crate) fn has_read_after(has_read: bool, command: Command) -> bool
    ensures { result ≡ (has_read || reads_weakly command) }
{
    match command {
        Command::Deref(_, _) => true,
        _ => has_read,
    }
}

/// Whether a census lists what the reply to it names.
pub(crate) fn lists(command: Command) -> bool
    ensures { result ≡ lists command }
{
    match command {
        Command::Native(_, _)
        | Command::Script(_, _)
        | Command::WeakMap(_)
        | Command::Proxy(_, _)
        | Command::Wrap(_, _) => true,
        _ => false,
    }
}
