//! What is asked next.
ghost use Rattle.std.specs.Prelude.{◌≡◌, ◌∷◌, [], false, IfNone, IfSome, IsTrue};
ghost use Rattle.cc_laws_run.specs.Running.{ask_in_range};
ghost use Rattle.cc_check.specs.Judging.{asks_nothing, begins_with_census, from_next, is_census, GoesAlong};
ghost use Rattle.cc_check.specs.Standing.{ask_meant, asks_left};

use crate::asked::Asked;
use crate::script::Script;
use cc_model::Command;

/// What is asked next that has an answer: blank lines and comments are passed over. None where nothing is asked any more; the script is
/// not read on then.
pub(crate) fn next_asked(script: &mut Script<'_>) -> Option<Asked>
    ensures some { IfSome result (λ asked. from_next (asks_left script.old) ≡ ask_meant asked ∷ asks_left script.new) }
    ensures answered { IfSome result (λ asked. asks_nothing (ask_meant asked) ≡ false) }
    ensures in_range { IfSome result (λ asked. IsTrue (ask_in_range (ask_meant asked))) }
    ensures none { IfNone result (from_next (asks_left script.old) ≡ []) }
    ensures stays { IfNone result (script.new ≡ script.old) }
    ensures along { GoesAlong script.old script.new }
{
    let mut ahead = *script;
    while let Some(asked) = ahead.next() {
        if !asks_nothing(asked) {
            *script = ahead;
            return Some(asked);
        }
    }
    None
}

/// Whether a line asks nothing.
fn asks_nothing(asked: Asked) -> bool
    ensures { result ≡ asks_nothing (ask_meant asked) }
{
    match asked {
        Asked::Taken(Command::Nothing) => true,
        _ => false,
    }
}

/// Whether a census is asked next. The script is not read on.
pub(crate) fn census_is_next(script: Script<'_>) -> bool
    ensures { result ≡ begins_with_census (from_next (asks_left script.entry)) }
{
    let mut ahead = script;
    match next_asked(&mut ahead) {
        Some(asked) => is_census(asked),
        None => false,
    }
}

/// Whether a line asks for a census.
fn is_census(asked: Asked) -> bool
    ensures { result ≡ is_census (ask_meant asked) }
{
    match asked {
        Asked::Taken(Command::Census) => true,
        _ => false,
    }
}
