//! What the registers of the graph reach, found when it is first asked for.
ghost use Rattle.std.specs.Prelude.{◌≡◌, ◌↔◌, IfOk, IsTrue, List, OnOk};
ghost use Rattle.cc_lists.specs.Members.{Among, has};
ghost use Rattle.cc_names.specs.Names.{same_name};
ghost use Rattle.cc_names.specs.declared.name.Name.{Name as TheName};
ghost use Rattle.cc_model.specs.declared.command.Command.TheVariants as command;
ghost use Rattle.cc_model.specs.Asks.{taken};
ghost use Rattle.cc_model.specs.Derivations.{named};
ghost use Rattle.cc_model.specs.Graph as graph;
ghost use Rattle.cc_model.specs.Listed.{census_order};
ghost use Rattle.cc_model.specs.Quiet.{CensusIsQuiet, ListsReached};
ghost use Rattle.cc_model.specs.Reached.{Reached};
ghost use Rattle.cc_model.specs.WellMade.{IsWellMade};
ghost use Rattle.cc_model.specs.Lawful.{state_of, step_with};
ghost use Rattle.cc_verdict.specs.Hearing.{IsOfGarbage};
ghost use Rattle.cc_check.specs.Standing.{IsFoundIn, IsOf, row_meant};

use crate::commands::leaves_graph;
use crate::row::Row;
use cc_listed::Listed;
use cc_model::{Command, Event};
use cc_names::{Name, NoMemory};
use cc_object_graph::ObjectGraph;
use cc_search::Reach;
use std::alloc::Global;

/// What the registers of a graph reach, where it is known.
#[derive(Drop)]
pub(crate) struct Known {
    pub(crate) reach: Reach,
    pub(crate) is_found: bool,
}

impl Known {
    /// Nothing is known.
    pub(crate) fn new(alloc: Global) -> Known
        ensures { (g : graph.Graph) → IsOf result g }
    {
        Known {
            reach: Reach::new(alloc),
            is_found: false,
        }
    }

    /// Goes on with the graph after a command: nothing is known of it, unless the command leaves the graph.
    pub(crate) fn go_on(&mut self, command: Command)
        ensures { (ended : List TheName) (g : graph.Graph) → IsOf self.old g → IsOf self.new (step_with ended g command) }
    {
        if !leaves_graph(command) {
            self.is_found = false;
        }
    }

    /// Finds what the registers reach, where it is not known. After `NoMemory` it is only let go.
    pub(crate) fn find(&mut self, graph: &ObjectGraph) -> Result<(), NoMemory>
        requires well_made { IsWellMade graph.now }
        requires known { IsOf self.old graph.now }
        ensures { OnOk result (IsFoundIn self.new graph.now) }
    {
        if !self.is_found {
            self.reach.find(graph)?;
            self.is_found = true;
        }
        Ok(())
    }

    /// Whether an event is one of garbage: what it names is listed, and not reached.
    pub(crate) fn is_of_garbage(
        &mut self,
        graph: &ObjectGraph,
        listed: &Listed,
        event: Event,
    ) -> Result<bool, NoMemory>
        requires well_made { IsWellMade graph.now }
        requires known { IsOf self.old graph.now }
        ensures garbage { IfOk result (λ b. IsTrue b ↔ IsOfGarbage graph.now listed.now event) }
        ensures known { OnOk result (IsOf self.new graph.now) }
    {
        match event {
            Event::Freed(name) => self.is_garbage(graph, listed, name),
            Event::Unlinked(name) => self.is_garbage(graph, listed, name),
            Event::Abandoned => Ok(true),
        }
    }

    /// Whether an object is listed, and not reached.
    fn is_garbage(
        &mut self,
        graph: &ObjectGraph,
        listed: &Listed,
        name: Name,
    ) -> Result<bool, NoMemory>
        requires well_made { IsWellMade graph.now }
        requires known { IsOf self.old graph.now }
        ensures garbage { IfOk result (λ b. IsTrue b ↔ (Among name listed.now × (¬ (Reached graph.now name)))) }
        ensures known { OnOk result (IsOf self.new graph.now) }
    {
        if !listed.has(&name) {
            return Ok(false);
        }
        self.find(graph)?;
        Ok(!self.reach.has(&name))
    }

    /// Whether a census may come after this much of the row: after all of it where it lists exactly the reached objects, and else
    /// whatever it lists. The names are those that it lists.
    pub(crate) fn is_quiet(
        &mut self,
        row: Row,
        graph: &ObjectGraph,
        listed: &Listed,
        names: &[Name],
    ) -> Result<bool, NoMemory>
        requires well_made { IsWellMade graph.now }
        requires known { IsOf self.old graph.now }
        requires names { names.now ≡ census_order listed.now }
        ensures quiet { IfOk result (λ b. (ended : List TheName) → IsTrue b ↔
            CensusIsQuiet (row_meant row) (state_of graph.now listed.now ended) (taken command.Census)) }
        ensures known { OnOk result (IsOf self.new graph.now) }
    {
        match row {
            Row::AfterAll => self.are_exactly(graph, listed, names),
            _ => Ok(true),
        }
    }

    /// Whether exactly the reached objects are listed. The names are those that are listed, as a census has them.
    fn are_exactly(
        &mut self,
        graph: &ObjectGraph,
        listed: &Listed,
        names: &[Name],
    ) -> Result<bool, NoMemory>
        requires well_made { IsWellMade graph.now }
        requires known { IsOf self.old graph.now }
        requires names { names.now ≡ census_order listed.now }
        ensures exactly { IfOk result (λ b. (ended : List TheName) → IsTrue b ↔ ListsReached (state_of graph.now listed.now ended)) }
        ensures known { OnOk result (IsOf self.new graph.now) }
    {
        self.find(graph)?;
        Ok(are_found(&self.reach, names) && are_listed(&self.reach, listed))
    }
}

/// Whether all these objects were found.
fn are_found(reach: &Reach, names: &[Name]) -> bool
    ensures { IsTrue result ↔ ((x : TheName) → Among x names.now → Among x (named reach.now)) }
{
    for name in names {
        if !reach.has(name) {
            return false;
        }
    }
    true
}

/// Whether all objects that were found are listed.
fn are_listed(reach: &Reach, listed: &Listed) -> bool
    ensures { IsTrue result ↔ ((x : TheName) → Among x (named reach.now) → Among x listed.now) }
{
    for i in 0..reach.len() {
        if !listed.has(&reach.name(i)) {
            return false;
        }
    }
    true
}
