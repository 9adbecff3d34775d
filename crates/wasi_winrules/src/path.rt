ghost use Rattle.std.specs.Prelude.{◌≡◌, ◌+◌, ◌<◌, ◌≤◌, ◌↔◌, IsTrue, MatchOption, slice_index, length, false, true};
ghost use Rattle.std.specs.List.{AllWithin};
ghost use Rattle.wasi_winrules.specs.Paths.{is_separator, EndsIn, HasTrailingSlash, HasTrailingDot, RequiresDir, IsStripped};

pub(crate) const SLASH: u16 = 47;

pub(crate) const BACKSLASH: u16 = 92;

pub(crate) const DOT: u16 = 46;

/// Whether the unit parts two components: `/` or `\`.
pub(crate) fn is_separator(unit: u16) -> bool
    ensures { result ≡ is_separator unit }
{
    unit == SLASH || unit == BACKSLASH
}

/// Whether the path ends in these units.
fn ends_in(path: &[u16], end: &[u16]) -> bool
    ensures { IsTrue result ↔ EndsIn path.now end.now }
{
    path.ends_with(end)
}

/// Whether the path can only name a directory: it ends in a separator, or in one and a dot.
pub fn path_requires_dir(path: &[u16]) -> bool
    ensures { IsTrue result ↔ RequiresDir path.now }
{
    path_has_trailing_slash(path) || path_really_has_trailing_dot(path)
}

/// Whether the path ends in a separator and a dot.
pub fn path_really_has_trailing_dot(path: &[u16]) -> bool
    ensures { IsTrue result ↔ HasTrailingDot path.now }
{
    ends_in(path, &[SLASH, DOT]) || ends_in(path, &[BACKSLASH, DOT])
}

/// Whether the path ends in a separator.
pub fn path_has_trailing_slash(path: &[u16]) -> bool
    ensures { IsTrue result ↔ HasTrailingSlash path.now }
{
    ends_in(path, &[SLASH]) || ends_in(path, &[BACKSLASH])
}

/// Never, as Windows takes `foo/.` for `foo`, whatever `foo` is.
pub fn path_has_trailing_dot(_path: &[u16]) -> bool
    ensures { result ≡ false }
{
    false
}

/// The place of the last unit that is no separator.
fn last_plain(path: &[u16]) -> Option<usize>
    ensures { MatchOption result (AllWithin (λ unit. is_separator unit ≡ true) path.now 0 (length path.now)) (λ last. (last < length path.now) × (is_separator (slice_index path.now last) ≡ false) × AllWithin (λ unit. is_separator unit ≡ true) path.now (last + 1) (length path.now)) }
{
    path.iter().rposition(|unit| !is_separator(*unit))
}

/// The path without the separators at its end; of one that has nothing else, the first.
pub fn strip_dir_suffix(path: &[u16]) -> &[u16]
    ensures { IsStripped path.now result.now }
{
    match last_plain(path) {
        Some(last) => &path[..last + 1],
        None => &path[..path.len().min(1)],
    }
}
