//! Names of members and classes.

ghost use Rattle.std.specs.Prelude.{◌≡◌};
ghost use Rattle.std.specs.Str.{bytes_eq};
ghost use Rattle.allowlist.specs.Allow.{dotted, spelled_byte};

/// Whether a class's name, with `.` for its `$`, is a name.
pub(crate) fn is_dotted(class: &[u8], name: &[u8]) -> bool
    ensures { result ≡ bytes_eq (dotted class.now) name.now }
{
    if class.len() != name.len() {
        return false;
    }
    for at in 0..class.len() {
        if spelled(class[at]) != name[at] {
            return false;
        }
    }
    true
}

/// `.` for `$`, and every other byte as it is.
fn spelled(byte: u8) -> u8
    ensures { result ≡ spelled_byte byte }
{
    if byte == b'$' { b'.' } else { byte }
}
