//! The name of a file without its folders.

ghost use Rattle.std.specs.Prelude.{◌≡◌};
ghost use Rattle.result_pages.specs.FileNames.{last_segment};

/// What comes after the last `/` of a path; the whole path where it has none.
pub fn last_segment(path: &[u8]) -> &[u8]
    ensures { result.now ≡ last_segment path.now }
{
    let mut start = path.len();
    while start > 0 {
        if path[start - 1] == b'/' {
            let (_, name) = path.split_at(start);
            return name;
        }
        start -= 1;
    }
    path
}
