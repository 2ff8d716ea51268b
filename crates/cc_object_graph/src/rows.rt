//! Rows of places that each hold a name or nothing.
ghost use Rattle.std.specs.Prelude.{◌≡◌, ◌++◌, ◌∷◌, [], None, slice_index_or};

use cc_names::Name;

/// What a place of a row holds; none past the last.
pub(crate) fn content(row: &[Option<Name>], i: usize) -> Option<Name>
    ensures { result ≡ slice_index_or row.now i None }
{
    match row.get(i) {
        Some(content) => *content,
        None => None,
    }
}

/// The same where one more place follows.
pub(crate) fn content_with(row: &[Option<Name>], last: Option<Name>, i: usize) -> Option<Name>
    ensures { result ≡ slice_index_or (row.now ++ last ∷ []) i None }
{
    if i < row.len() {
        return row[i];
    }
    if i == row.len() { last } else { None }
}

/// The same where two more places follow.
pub(crate) fn content_with_two(
    row: &[Option<Name>],
    first: Option<Name>,
    second: Option<Name>,
    i: usize,
) -> Option<Name>
    ensures { result ≡ slice_index_or (row.now ++ first ∷ [] ++ second ∷ []) i None }
{
    if i <= row.len() {
        return content_with(row, first, i);
    }
    if i - 1 == row.len() { second } else { None }
}
