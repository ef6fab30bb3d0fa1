//! Lines as C passes them.
ghost use Rattle.std.specs.Prelude.{◌≡◌};
ghost use Rattle.std.specs.Io.BufRead.{strip_last};

/// A line without the newline at its end, where it has one.
pub fn without_newline(line: &[u8]) -> &[u8]
    ensures { result.now ≡ strip_last 10 line.now }
{
    let len = line.len();
    if len == 0 {
        return line;
    }
    if line[len - 1] != b'\n' {
        return line;
    }
    &line[..len - 1]
}
