//! The steps that lead to an object, of all that were found.
ghost use Rattle.std.specs.Prelude.{◌≡◌, ◌∷◌, ◌++◌, List, [], length, IfOk};
ghost use Rattle.cc_names.specs.declared.name.Name.{Name as TheName};
ghost use Rattle.cc_model.specs.Derivations.{grounds, needed_for, steps_of};
ghost use Rattle.cc_search.specs.Needed.{AreWanted};

use crate::found::Found;
use cc_model::Reason;
use cc_names::{Name, NoMemory};
use std::alloc::Global;

impl Found {
    /// An object is wanted, where it is found.
    fn want(&self, name: &Name, wanted: &mut [bool])
        requires { length wanted.old ≡ length (steps_of self.now) }
        ensures { (names : List TheName) → AreWanted (steps_of self.now) wanted.old names → AreWanted (steps_of self.now) wanted.new (name.now ∷ names) }
    {
        if let Some(i) = self.place(name) {
            wanted[i] = true;
        }
    }

    /// The objects on which a step rests are wanted.
    fn want_grounds(&self, reason: Reason, wanted: &mut [bool])
        requires { length wanted.old ≡ length (steps_of self.now) }
        ensures { (names : List TheName) → AreWanted (steps_of self.now) wanted.old names → AreWanted (steps_of self.now) wanted.new (grounds reason ++ names) }
    {
        match reason {
            Reason::Root(_) => {}
            Reason::Edge(from) => self.want(&from, wanted),
            Reason::Pair(the_map, with) => {
                self.want(&with, wanted);
                self.want(&the_map, wanted);
            }
        }
    }

    /// The steps that lead to an object, each once, itself last; none where it is not found.
    pub(crate) fn path_to(
        &self,
        alloc: Global,
        name: &Name,
    ) -> Result<Vec<(Name, Reason)>, NoMemory>
        ensures { IfOk result (λ path. path.items ≡ (needed_for (steps_of self.now) (name.now ∷ [])).steps) }
    {
        let mut wanted = Vec::new(alloc);
        wanted.resize(self.len(), false)?;
        self.want(name, &mut wanted);
        let mut path = Vec::new(alloc);
        let mut i = self.len();
        'steps: while i > 0 {
            i -= 1;
            if wanted[i] {
                let (object, reason) = self.step(i);
                if path.push((object, reason)).is_err() {
                    return Err(NoMemory);
                }
                self.want_grounds(reason, &mut wanted);
            }
        }
        path.reverse();
        Ok(path)
    }
}
