//! Where the parents of paths end.

ghost use Rattle.std.specs.Prelude.{◌≡◌, ◌<◌, ◌≤◌, length, IfSome};
ghost use Rattle.fs_data.specs.Paths.{before_name, before_slashes, parent_end};

/// The length of a path's first `end` bytes without the slashes at their end.
fn before_slashes(path: &[u8], end: usize) -> usize
    requires { end ≤ length path.now }
    ensures place { result ≡ before_slashes path.now end }
    ensures inside { result ≤ end }
{
    let mut at = end;
    while at > 0 && path[at - 1] == b'/' {
        at -= 1;
    }
    at
}

/// The length of a path's first `end` bytes without the name at their end.
fn before_name(path: &[u8], end: usize) -> usize
    requires { end ≤ length path.now }
    ensures place { result ≡ before_name path.now end }
    ensures inside { result ≤ end }
{
    let mut at = end;
    while at > 0 && path[at - 1] != b'/' {
        at -= 1;
    }
    at
}

/// The length of the parent of a path's first `end` bytes: what is left without the slashes at
/// their end, then without the last name, then without the slashes before that name; and the root
/// where the path began at it and nothing is left. Nothing, and slashes alone, have no parent.
pub fn parent_end(path: &[u8], end: usize) -> Option<usize>
    requires { end ≤ length path.now }
    ensures parent { result ≡ parent_end path.now end }
    ensures shorter { IfSome result (λ n. n ≤ end) }
{
    let name_end = before_slashes(path, end);
    if name_end == 0 {
        return None;
    }
    let above = before_slashes(path, before_name(path, name_end));
    if above > 0 {
        return Some(above);
    }
    if path[0] == b'/' { Some(1) } else { None }
}
