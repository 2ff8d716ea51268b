//! Commands read off the tokens of a line, one function for each word.

ghost use Rattle.std.specs.Prelude.{◌≡◌, ◌<◌, [], ◌∷◌, length, IsTrue, IfSome};
ghost use Rattle.cc_model.specs.Lines.{without_return};
ghost use Rattle.cc_model.specs.Tokens.{tokens_of};
ghost use Rattle.cc_model.specs.Forms.{census_form, collect_form, copy_native_form, copy_script_form, deref_form, drop_native_form, drop_script_form, drop_weak_form, expose_form, forget_form, forms_of, gc_form, get_entry_form, get_native_form, get_script_form, mark_form, move_form, native_form, preserve_form, proxy_form, put_none_form, put_script_form, script_form, set_entry_form, set_native_form, set_none_form, set_script_form, slice_form, take_form, unset_entry_form, unwrap_form, version_form, weak_form, weak_map_form, why_form, wrap_form};
ghost use Rattle.cc_model.specs.Ranges.{in_range};
ghost use Rattle.cc_model.specs.Asks.{command_in, command_of};
ghost use Rattle.cc_reader.specs.Words.{first_read, heap_forms, own_forms, reflector_forms, register_forms, slot_forms};

use crate::tokens::{
    four_tokens, native, next_token, number, object_name, one_token, register_of, script,
    slots_number, three_tokens, two_tokens, units_number, weak,
};
use cc_model::{Command, Dialect};
use cc_names::Reg;

/// A line without the carriage return at its end.
fn without_return(line: &[u8]) -> &[u8]
    ensures { result.now ≡ without_return line.now }
{
    if line.is_empty() {
        return line;
    }
    let last = line.len() - 1;
    if line[last] == b'\r' {
        &line[..last]
    } else {
        line
    }
}

/// The command of the word `native`, by the tokens that stand behind it. None where they are in no form of it.
fn read_native(after: &[u8], dialect: Dialect) -> Option<Command>
    ensures form { result ≡ first_read (native_form dialect ∷ []) (tokens_of after.now) }
    ensures in_range { IfSome result (λ c. IsTrue (in_range c)) }
{
    let (to, slots) = two_tokens(after)?;
    Some(Command::Native(native(to, dialect)?, slots_number(slots, dialect)?))
}

/// The command of the word `script`, by the tokens that stand behind it. None where they are in no form of it.
fn read_script(after: &[u8], dialect: Dialect) -> Option<Command>
    ensures form { result ≡ first_read (script_form dialect ∷ []) (tokens_of after.now) }
    ensures in_range { IfSome result (λ c. IsTrue (in_range c)) }
{
    let (to, slots) = two_tokens(after)?;
    Some(Command::Script(script(to, dialect)?, slots_number(slots, dialect)?))
}

/// The command of the word `weakmap`, by the tokens that stand behind it. None where they are in no form of it.
fn read_weak_map(after: &[u8], dialect: Dialect) -> Option<Command>
    ensures form { result ≡ first_read (weak_map_form dialect ∷ []) (tokens_of after.now) }
    ensures in_range { IfSome result (λ c. IsTrue (in_range c)) }
{
    let to = one_token(after)?;
    Some(Command::WeakMap(script(to, dialect)?))
}

/// The command of the word `proxy`, by the tokens that stand behind it. None where they are in no form of it.
fn read_proxy(after: &[u8], dialect: Dialect) -> Option<Command>
    ensures form { result ≡ first_read (proxy_form dialect ∷ []) (tokens_of after.now) }
    ensures in_range { IfSome result (λ c. IsTrue (in_range c)) }
{
    let (to, of) = two_tokens(after)?;
    Some(Command::Proxy(script(to, dialect)?, script(of, dialect)?))
}

/// The command of the word `copy`, by the tokens that stand behind it. None where they are in no form of it.
fn read_copy(after: &[u8], dialect: Dialect) -> Option<Command>
    ensures form { result ≡ first_read (copy_native_form dialect ∷ copy_script_form dialect ∷ []) (tokens_of after.now) }
    ensures in_range { IfSome result (λ c. IsTrue (in_range c)) }
{
    let (to, from) = two_tokens(after)?;
    match native(to, dialect) {
        Some(register) => Some(Command::CopyNative(register, native(from, dialect)?)),
        None => Some(Command::CopyScript(script(to, dialect)?, script(from, dialect)?)),
    }
}

/// The command of the word `drop`, by the tokens that stand behind it. None where they are in no form of it.
fn read_drop(after: &[u8], dialect: Dialect) -> Option<Command>
    ensures form { result ≡ first_read (drop_native_form dialect ∷ drop_script_form dialect ∷ []) (tokens_of after.now) }
    ensures in_range { IfSome result (λ c. IsTrue (in_range c)) }
{
    let register = one_token(after)?;
    Some(Command::Drop(register_of(register, dialect)?))
}

/// The command of the word `set`, by the tokens that stand behind it. None where they are in no form of it.
fn read_set(after: &[u8], dialect: Dialect) -> Option<Command>
    ensures form { result ≡ first_read (set_native_form dialect ∷ set_script_form dialect ∷ set_none_form dialect ∷ []) (tokens_of after.now) }
    ensures in_range { IfSome result (λ c. IsTrue (in_range c)) }
{
    let (to, slot, from) = three_tokens(after)?;
    let register = native(to, dialect)?;
    let slot = number(slot, u32::MAX)?;
    match register_of(from, dialect) {
        Some(source) => Some(Command::Set(register, slot, Some(source))),
        None => {
            if from == b"none".as_slice() {
                Some(Command::Set(register, slot, None))
            } else {
                None
            }
        }
    }
}

/// The command of the word `get`, by the tokens that stand behind it. None where they are in no form of it.
fn read_get(after: &[u8], dialect: Dialect) -> Option<Command>
    ensures form { result ≡ first_read (get_native_form dialect ∷ get_script_form dialect ∷ []) (tokens_of after.now) }
    ensures in_range { IfSome result (λ c. IsTrue (in_range c)) }
{
    let (to, from, slot) = three_tokens(after)?;
    let register = register_of(to, dialect)?;
    let from = native(from, dialect)?;
    let slot = number(slot, u32::MAX)?;
    Some(Command::Get(register, from, slot))
}

/// The command of the word `put`, by the tokens that stand behind it. None where they are in no form of it.
fn read_put(after: &[u8], dialect: Dialect) -> Option<Command>
    ensures form { result ≡ first_read (put_script_form dialect ∷ put_none_form dialect ∷ []) (tokens_of after.now) }
    ensures in_range { IfSome result (λ c. IsTrue (in_range c)) }
{
    let (to, slot, from) = three_tokens(after)?;
    let register = script(to, dialect)?;
    let slot = number(slot, u32::MAX)?;
    match script(from, dialect) {
        Some(source) => Some(Command::Put(register, slot, Some(source))),
        None => {
            if from == b"none".as_slice() {
                Some(Command::Put(register, slot, None))
            } else {
                None
            }
        }
    }
}

/// The command of the word `take`, by the tokens that stand behind it. None where they are in no form of it.
fn read_take(after: &[u8], dialect: Dialect) -> Option<Command>
    ensures form { result ≡ first_read (take_form dialect ∷ []) (tokens_of after.now) }
    ensures in_range { IfSome result (λ c. IsTrue (in_range c)) }
{
    let (to, from, slot) = three_tokens(after)?;
    let register = script(to, dialect)?;
    let from = script(from, dialect)?;
    let slot = number(slot, u32::MAX)?;
    Some(Command::Take(register, from, slot))
}

/// The command of the word `wrap`, by the tokens that stand behind it. None where they are in no form of it.
fn read_wrap(after: &[u8], dialect: Dialect) -> Option<Command>
    ensures form { result ≡ first_read (wrap_form dialect ∷ []) (tokens_of after.now) }
    ensures in_range { IfSome result (λ c. IsTrue (in_range c)) }
{
    let (to, from) = two_tokens(after)?;
    Some(Command::Wrap(script(to, dialect)?, native(from, dialect)?))
}

/// The command of the word `unwrap`, by the tokens that stand behind it. None where they are in no form of it.
fn read_unwrap(after: &[u8], dialect: Dialect) -> Option<Command>
    ensures form { result ≡ first_read (unwrap_form dialect ∷ []) (tokens_of after.now) }
    ensures in_range { IfSome result (λ c. IsTrue (in_range c)) }
{
    let (to, from) = two_tokens(after)?;
    Some(Command::Unwrap(native(to, dialect)?, script(from, dialect)?))
}

/// The command of the word `preserve`, by the tokens that stand behind it. None where they are in no form of it.
fn read_preserve(after: &[u8], dialect: Dialect) -> Option<Command>
    ensures form { result ≡ first_read (preserve_form dialect ∷ []) (tokens_of after.now) }
    ensures in_range { IfSome result (λ c. IsTrue (in_range c)) }
{
    let register = one_token(after)?;
    Some(Command::Preserve(script(register, dialect)?))
}

/// The command of the word `wset`, by the tokens that stand behind it. None where they are in no form of it.
fn read_set_entry(after: &[u8], dialect: Dialect) -> Option<Command>
    ensures form { result ≡ first_read (set_entry_form dialect ∷ unset_entry_form dialect ∷ []) (tokens_of after.now) }
    ensures in_range { IfSome result (λ c. IsTrue (in_range c)) }
{
    let (map, key, value) = three_tokens(after)?;
    let map = script(map, dialect)?;
    let key = script(key, dialect)?;
    match script(value, dialect) {
        Some(source) => Some(Command::SetEntry(map, key, Some(source))),
        None => {
            if value == b"none".as_slice() {
                Some(Command::SetEntry(map, key, None))
            } else {
                None
            }
        }
    }
}

/// The command of the word `wget`, by the tokens that stand behind it. None where they are in no form of it.
fn read_get_entry(after: &[u8], dialect: Dialect) -> Option<Command>
    ensures form { result ≡ first_read (get_entry_form dialect ∷ []) (tokens_of after.now) }
    ensures in_range { IfSome result (λ c. IsTrue (in_range c)) }
{
    let (to, map, key) = three_tokens(after)?;
    let to = script(to, dialect)?;
    let map = script(map, dialect)?;
    let key = script(key, dialect)?;
    Some(Command::GetEntry(to, map, key))
}

/// The command of the word `expose`, by the tokens that stand behind it. None where they are in no form of it.
fn read_expose(after: &[u8], dialect: Dialect) -> Option<Command>
    ensures form { result ≡ first_read (expose_form dialect ∷ []) (tokens_of after.now) }
    ensures in_range { IfSome result (λ c. IsTrue (in_range c)) }
{
    let (from, slot) = two_tokens(after)?;
    let register = native(from, dialect)?;
    let slot = number(slot, u32::MAX)?;
    Some(Command::Expose(register, slot))
}

/// The command of the word `why`, by the tokens that stand behind it. None where they are in no form of it.
fn read_why(after: &[u8]) -> Option<Command>
    ensures form { result ≡ first_read (why_form ∷ []) (tokens_of after.now) }
    ensures in_range { IfSome result (λ c. IsTrue (in_range c)) }
{
    let name = one_token(after)?;
    Some(Command::Why(object_name(name)?))
}

/// The command of the word `forget`, by the tokens that stand behind it. None where they are in no form of it.
fn read_forget(after: &[u8]) -> Option<Command>
    ensures form { result ≡ first_read (forget_form ∷ []) (tokens_of after.now) }
    ensures in_range { IfSome result (λ c. IsTrue (in_range c)) }
{
    match next_token(after) {
        None => Some(Command::Forget),
        Some(_) => None,
    }
}

/// The command of the word `mark`, by the tokens that stand behind it. None where they are in no form of it.
fn read_mark(after: &[u8]) -> Option<Command>
    ensures form { result ≡ first_read (mark_form ∷ []) (tokens_of after.now) }
    ensures in_range { IfSome result (λ c. IsTrue (in_range c)) }
{
    let units = one_token(after)?;
    Some(Command::Mark(units_number(units)?))
}

/// The command of the word `weak`, by the tokens that stand behind it. None where they are in no form of it.
fn read_weak(after: &[u8], dialect: Dialect) -> Option<Command>
    ensures form { result ≡ first_read (weak_form dialect ∷ []) (tokens_of after.now) }
    ensures in_range { IfSome result (λ c. IsTrue (in_range c)) }
{
    let (to, from) = two_tokens(after)?;
    Some(Command::Weak(weak(to)?, native(from, dialect)?))
}

/// The command of the word `deref`, by the tokens that stand behind it. None where they are in no form of it.
fn read_deref(after: &[u8], dialect: Dialect) -> Option<Command>
    ensures form { result ≡ first_read (deref_form dialect ∷ []) (tokens_of after.now) }
    ensures in_range { IfSome result (λ c. IsTrue (in_range c)) }
{
    let (to, from) = two_tokens(after)?;
    Some(Command::Deref(native(to, dialect)?, weak(from)?))
}

/// The command of the word `drop` where it empties a weak register, by the tokens that stand behind the word. None where
/// they are not in this form.
fn read_drop_weak(after: &[u8]) -> Option<Command>
    ensures form { result ≡ first_read (drop_weak_form ∷ []) (tokens_of after.now) }
    ensures in_range { IfSome result (λ c. IsTrue (in_range c)) }
{
    let register = one_token(after)?;
    Some(Command::Drop(Reg::W(weak(register)?)))
}

/// The command of the word `slice`, by the tokens that stand behind it. None where they are in no form of it.
fn read_slice(after: &[u8]) -> Option<Command>
    ensures form { result ≡ first_read (slice_form ∷ []) (tokens_of after.now) }
    ensures in_range { IfSome result (λ c. IsTrue (in_range c)) }
{
    let units = one_token(after)?;
    Some(Command::Slice(units_number(units)?))
}

/// The command of the word `collect`, by the tokens that stand behind it. None where they are in no form of it.
fn read_collect(after: &[u8]) -> Option<Command>
    ensures form { result ≡ first_read (collect_form ∷ []) (tokens_of after.now) }
    ensures in_range { IfSome result (λ c. IsTrue (in_range c)) }
{
    match next_token(after) {
        None => Some(Command::Collect),
        Some(_) => None,
    }
}

/// The command of the word `gc`, by the tokens that stand behind it. None where they are in no form of it.
fn read_gc(after: &[u8]) -> Option<Command>
    ensures form { result ≡ first_read (gc_form ∷ []) (tokens_of after.now) }
    ensures in_range { IfSome result (λ c. IsTrue (in_range c)) }
{
    match next_token(after) {
        None => Some(Command::Gc),
        Some(_) => None,
    }
}

/// The command of the word `census`, by the tokens that stand behind it. None where they are in no form of it.
fn read_census(after: &[u8]) -> Option<Command>
    ensures form { result ≡ first_read (census_form ∷ []) (tokens_of after.now) }
    ensures in_range { IfSome result (λ c. IsTrue (in_range c)) }
{
    match next_token(after) {
        None => Some(Command::Census),
        Some(_) => None,
    }
}

/// The command of the word `version`, by the tokens that stand behind it. None where they are in no form of it.
fn read_version(after: &[u8]) -> Option<Command>
    ensures form { result ≡ first_read (version_form ∷ []) (tokens_of after.now) }
    ensures in_range { IfSome result (λ c. IsTrue (in_range c)) }
{
    let version = one_token(after)?;
    if version == b"2".as_slice() {
        Some(Command::Version2)
    } else {
        None
    }
}

/// The command of the word `move`, by the tokens that stand behind it. None where they are in no form of it.
fn read_move(after: &[u8], dialect: Dialect) -> Option<Command>
    ensures form { result ≡ first_read (move_form dialect ∷ []) (tokens_of after.now) }
    ensures in_range { IfSome result (λ c. IsTrue (in_range c)) }
{
    let (to, slot, from, place) = four_tokens(after)?;
    let register = native(to, dialect)?;
    let slot = number(slot, u32::MAX)?;
    let from = native(from, dialect)?;
    let place = number(place, u32::MAX)?;
    Some(Command::Move(register, slot, from, place))
}

/// The command of a word that makes an object, or copies or drops what a register holds, and of what stands behind it. None
/// where the word is no such one.
fn read_of_registers(word: &[u8], after: &[u8], dialect: Dialect) -> Option<Command>
    ensures form { result ≡ command_in (register_forms dialect) word.now (tokens_of after.now) }
    ensures in_range { IfSome result (λ c. IsTrue (in_range c)) }
{
    if word == b"native".as_slice() {
        read_native(after, dialect)
    } else if word == b"script".as_slice() {
        read_script(after, dialect)
    } else if word == b"weakmap".as_slice() {
        read_weak_map(after, dialect)
    } else if word == b"proxy".as_slice() {
        read_proxy(after, dialect)
    } else if word == b"copy".as_slice() {
        read_copy(after, dialect)
    } else if word == b"drop".as_slice() {
        read_drop(after, dialect)
    } else {
        None
    }
}

/// The command of a word that writes or reads a slot, and of what stands behind it. None where the word is no such one.
fn read_of_slots(word: &[u8], after: &[u8], dialect: Dialect) -> Option<Command>
    ensures form { result ≡ command_in (slot_forms dialect) word.now (tokens_of after.now) }
    ensures in_range { IfSome result (λ c. IsTrue (in_range c)) }
{
    if word == b"set".as_slice() {
        read_set(after, dialect)
    } else if word == b"get".as_slice() {
        read_get(after, dialect)
    } else if word == b"put".as_slice() {
        read_put(after, dialect)
    } else if word == b"take".as_slice() {
        read_take(after, dialect)
    } else {
        None
    }
}

/// The command of a word that speaks of a reflector, an entry of a weak map or an exposure, and of what stands behind it. None
/// where the word is no such one.
fn read_of_reflectors(word: &[u8], after: &[u8], dialect: Dialect) -> Option<Command>
    ensures form { result ≡ command_in (reflector_forms dialect) word.now (tokens_of after.now) }
    ensures in_range { IfSome result (λ c. IsTrue (in_range c)) }
{
    if word == b"wrap".as_slice() {
        read_wrap(after, dialect)
    } else if word == b"unwrap".as_slice() {
        read_unwrap(after, dialect)
    } else if word == b"preserve".as_slice() {
        read_preserve(after, dialect)
    } else if word == b"wset".as_slice() {
        read_set_entry(after, dialect)
    } else if word == b"wget".as_slice() {
        read_get_entry(after, dialect)
    } else if word == b"expose".as_slice() {
        read_expose(after, dialect)
    } else {
        None
    }
}

/// The command of a word that names no register, and of what stands behind it. None where the word is no such one.
fn read_of_heaps(word: &[u8], after: &[u8]) -> Option<Command>
    ensures form { result ≡ command_in heap_forms word.now (tokens_of after.now) }
    ensures in_range { IfSome result (λ c. IsTrue (in_range c)) }
{
    if word == b"slice".as_slice() {
        read_slice(after)
    } else if word == b"collect".as_slice() {
        read_collect(after)
    } else if word == b"gc".as_slice() {
        read_gc(after)
    } else if word == b"census".as_slice() {
        read_census(after)
    } else {
        None
    }
}

/// The command of a word that this dialect alone has, and of what stands behind it. None where the word is no such one.
fn read_of_dialect(word: &[u8], after: &[u8], dialect: Dialect) -> Option<Command>
    ensures form { result ≡ command_in (own_forms dialect) word.now (tokens_of after.now) }
    ensures in_range { IfSome result (λ c. IsTrue (in_range c)) }
{
    match dialect {
        Dialect::Start => {
            if word == b"version".as_slice() {
                read_version(after)
            } else {
                None
            }
        }
        Dialect::One => None,
        Dialect::Two => {
            if word == b"move".as_slice() {
                read_move(after, dialect)
            } else if word == b"why".as_slice() {
                read_why(after)
            } else if word == b"forget".as_slice() {
                read_forget(after)
            } else if word == b"mark".as_slice() {
                read_mark(after)
            } else if word == b"weak".as_slice() {
                read_weak(after, dialect)
            } else if word == b"deref".as_slice() {
                read_deref(after, dialect)
            } else if word == b"drop".as_slice() {
                read_drop_weak(after)
            } else {
                None
            }
        }
    }
}

/// The command of a word and what stands behind it.
#[tactic(auto, using(crate::proofs::Reading::in_groups))]
fn read_word(word: &[u8], after: &[u8], dialect: Dialect) -> Option<Command>
    ensures form { result ≡ command_in (forms_of dialect) word.now (tokens_of after.now) }
    ensures in_range { IfSome result (λ c. IsTrue (in_range c)) }
{
    if let Some(command) = read_of_dialect(word, after, dialect) {
        return Some(command);
    }
    if let Some(command) = read_of_registers(word, after, dialect) {
        return Some(command);
    }
    if let Some(command) = read_of_slots(word, after, dialect) {
        return Some(command);
    }
    if let Some(command) = read_of_reflectors(word, after, dialect) {
        return Some(command);
    }
    read_of_heaps(word, after)
}

/// The command that a line asks, given without its line feed. None where the line is not in the grammar of its dialect.
///
/// A carriage return at its end is dropped. A blank line and a comment, whose first token begins with `%`, are
/// `Command::Nothing`. No memory is taken.
pub fn parse(text: &[u8], dialect: Dialect) -> Option<Command>
    ensures command { result ≡ command_of dialect text.now }
    ensures in_range { IfSome result (λ c. IsTrue (in_range c)) }
{
    let line = without_return(text);
    let Some((word, after)) = next_token(line) else {
        return Some(Command::Nothing);
    };
    if word[0] == b'%' {
        return Some(Command::Nothing);
    }
    read_word(word, after, dialect)
}
