//! What a table knows of a number.
ghost use Rattle.std.specs.Prelude.{◌≡◌, ◌<◌};
ghost use Rattle.cc_holders.specs.Entries.{count_of, is_known, is_marked, key_of, one_if, one_less, one_more};

/// What a table knows of a number. It is marked as long as its count is above zero.
#[derive(Clone, Copy, Debug, PartialEq, Eq, Drop)]
pub enum Entry {
    /// Nothing.
    Unknown,
    /// Its count and its key.
    Known(u16, u32),
}

impl Entry {
    /// Whether the number is known.
    pub fn is_known(self) -> bool
        ensures { result ≡ is_known self }
    {
        match self {
            Entry::Unknown => false,
            Entry::Known(_, _) => true,
        }
    }

    /// Its key, where the number is marked.
    pub(crate) fn marked_key(self) -> Option<u32>
        ensures { result ≡ key_of self }
    {
        match self {
            Entry::Known(count, key) if count > 0 => Some(key),
            _ => None,
        }
    }

    /// One where the number is known, and else none.
    pub(crate) fn count_known(self) -> u32
        ensures { result ≡ one_if (is_known self) }
    {
        match self {
            Entry::Unknown => 0,
            Entry::Known(_, _) => 1,
        }
    }

    /// One where the number is marked, and else none.
    pub(crate) fn count_marked(self) -> u32
        ensures { result ≡ one_if (is_marked self) }
    {
        match self {
            Entry::Known(count, _) if count > 0 => 1,
            _ => 0,
        }
    }

    /// The same with a count greater by one.
    pub(crate) fn raised(self) -> Entry
        requires { count_of self < 65535 }
        ensures { result ≡ one_more self }
    {
        match self {
            Entry::Unknown => Entry::Unknown,
            Entry::Known(count, key) => Entry::Known(count + 1, key),
        }
    }

    /// The same with a count less by one, where it is above zero.
    pub(crate) fn lowered(self) -> Entry
        ensures { result ≡ one_less self }
    {
        match self {
            Entry::Known(count, key) if count > 0 => Entry::Known(count - 1, key),
            entry => entry,
        }
    }
}
