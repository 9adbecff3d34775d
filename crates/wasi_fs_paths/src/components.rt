ghost use Rattle.std.specs.Prelude.{◌≡◌, [], MatchOption};
ghost use Rattle.wasi_fs_paths.specs.Components.{components, counts, is_parent, is_empty, begins_with_slash, ends_with_slash, IsNext};

/// Whether a part of a path between slashes is a component: it is not empty, and it is not `.`.
fn does_count(part: &str) -> bool
    ensures { result ≡ counts part.now }
{
    !part.is_empty() && part != "."
}

/// The first component of a path, and what stands after it; `None` exactly where there is none.
pub fn next_component(path: &str) -> Option<(&str, &str)>
    ensures { MatchOption result (components path.now ≡ []) (λ p. IsNext path.now p.0.now p.1.now) }
{
    let mut rest = path;
    'parts: while let Some((part, after)) = rest.split_once('/') {
        if does_count(part) {
            return Some((part, after));
        }
        rest = after;
    }
    if does_count(rest) {
        Some((rest, ""))
    } else {
        None
    }
}

/// Whether a component goes back to the directory above: it is `..`.
pub fn is_parent(name: &str) -> bool
    ensures { result ≡ is_parent name.now }
{
    name == ".."
}

/// Whether a path has no bytes.
pub fn is_nothing(path: &str) -> bool
    ensures { result ≡ is_empty path.now }
{
    path.is_empty()
}

/// Whether a path begins at a root.
pub fn has_leading_slash(path: &str) -> bool
    ensures { result ≡ begins_with_slash path.now }
{
    path.starts_with("/")
}

/// Whether a path's last byte is `/`.
pub fn has_trailing_slash(path: &str) -> bool
    ensures { result ≡ ends_with_slash path.now }
{
    path.ends_with("/")
}
