//! The first line of a text, and what stands behind it.

ghost use Rattle.std.specs.Prelude.{◌≡◌, ◌≢◌, ◌<◌, ◌≤◌, [], ◌∷◌, length};
ghost use Rattle.trace_replay.specs.Lines.{first_size, lines_of};

/// How many bytes stand in front of the first line feed, or in all where there is none.
fn line_len(text: &[u8]) -> usize
    ensures size { result ≡ first_size text.now }
    ensures within { result ≤ length text.now }
{
    for (place, byte) in text.iter().enumerate() {
        if *byte == b'\n' {
            return place;
        }
    }
    text.len()
}

/// The first line of a text, without its line feed, and the text behind it.
pub fn split_line(text: &[u8]) -> (&[u8], &[u8])
    requires { text.now ≢ [] }
    ensures lines { lines_of text.now ≡ result.0.now ∷ lines_of result.1.now }
    ensures shorter { length result.1.now < length text.now }
{
    let len = line_len(text);
    let line = &text[..len];
    if len == text.len() {
        return (line, &text[len..]);
    }
    (line, &text[len + 1..])
}
