//! Lines, fields and how they are spelled.

ghost use Rattle.std.specs.Prelude.{◌≡◌, ◌<◌, ◌≤◌, [], ◌∷◌, ◌==◌, ◌||◌, ◌&&◌, nat_le, length, MatchOption, position};
ghost use Rattle.std.specs.List.{position_or_len, list_all};
ghost use Rattle.std.specs.Str.{bytes_eq};
ghost use Rattle.std.specs.Str.Lines.{lines, strip_carriage_return};
ghost use Rattle.trace_read.specs.Text.{is_blank, is_ink, is_plain, is_feed, fields};

/// Whether the byte parts fields: a space or a tab.
pub(crate) fn is_blank(byte: u8) -> bool
    ensures { result ≡ is_blank byte }
{
    byte == b' ' || byte == b'\t'
}

/// Whether each byte is a tab or printable ASCII.
pub(crate) fn is_plain(line: &[u8]) -> bool
    ensures { result ≡ list_all is_plain line.now }
{
    line.iter()
        .all(|b| *b == b'\t' || (b' ' <= *b && *b <= b'~'))
}

/// The place of the first byte that parts fields.
fn first_blank(line: &[u8]) -> Option<usize>
    ensures { result ≡ position is_blank line.now }
{
    line.iter().position(|b| is_blank(*b))
}

/// The place of the first byte of a field.
fn first_ink(line: &[u8]) -> Option<usize>
    ensures { result ≡ position is_ink line.now }
{
    line.iter().position(|b| !is_blank(*b))
}

/// The place of the first line feed.
fn first_feed(bytes: &[u8]) -> Option<usize>
    ensures { result ≡ position is_feed bytes.now }
{
    bytes.iter().position(|b| *b == b'\n')
}

/// How many bytes stand before the first that parts fields.
fn blank_at(line: &[u8]) -> usize
    ensures value { result ≡ position_or_len is_blank line.now }
    ensures within { result ≤ length line.now }
{
    first_blank(line).unwrap_or(line.len())
}

/// How many bytes stand before the first of a field.
fn ink_at(line: &[u8]) -> usize
    ensures value { result ≡ position_or_len is_ink line.now }
    ensures within { result ≤ length line.now }
{
    first_ink(line).unwrap_or(line.len())
}

/// How many bytes stand before the first line feed.
fn feed_at(bytes: &[u8]) -> usize
    ensures value { result ≡ position_or_len is_feed bytes.now }
    ensures within { result ≤ length bytes.now }
{
    first_feed(bytes).unwrap_or(bytes.len())
}

/// The first field of a line, and what is behind it.
pub(crate) fn next_field(line: &[u8]) -> Option<(&[u8], &[u8])>
    ensures split { MatchOption result (fields line.now ≡ [])
        (λ r. fields line.now ≡ r.0.now ∷ fields r.1.now) }
    ensures some { MatchOption result (fields line.now ≡ []) (λ r. 0 < length r.0.now) }
    ensures less { MatchOption result (fields line.now ≡ []) (λ r. length r.1.now < length line.now) }
{
    let start = ink_at(line);
    let rest = &line[start..];
    let end = blank_at(rest);
    if end == 0 {
        return None;
    }
    Some((&rest[..end], &rest[end..]))
}

/// The bytes without the carriage return at their end, if they have one.
fn strip_return(line: &[u8]) -> &[u8]
    ensures { result.now ≡ strip_carriage_return line.now }
{
    match line {
        [front @ .., b'\r'] => front,
        _ => line,
    }
}

/// The first line of a text, and what is behind it.
pub(crate) fn next_line(bytes: &[u8]) -> (&[u8], &[u8])
    requires { 0 < length bytes.now }
    ensures split { lines bytes.now ≡ result.0.now ∷ lines result.1.now }
    ensures less { length result.1.now < length bytes.now }
{
    let end = feed_at(bytes);
    if end == bytes.len() {
        return (bytes, &[]);
    }
    (strip_return(&bytes[..end]), &bytes[end + 1..])
}
