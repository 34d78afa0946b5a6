//! Lines that have no reply.

ghost use Rattle.std.specs.Prelude.{◌≡◌};
ghost use Rattle.document_replies.specs.Replies.{is_blank, is_blank_byte};

/// Whether a byte is a space, a tab or a carriage return.
fn is_blank_byte(byte: u8) -> bool
    ensures { result ≡ is_blank_byte byte }
{
    byte == b' ' || byte == b'\t' || byte == b'\r'
}

/// Whether a line has only such bytes.
pub fn is_blank(line: &[u8]) -> bool
    ensures { result ≡ is_blank line.now }
{
    for at in 0..line.len() {
        if !is_blank_byte(line[at]) {
            return false;
        }
    }
    true
}
