//! Texts that are held in memory, by their names.
ghost use Rattle.std.specs.Prelude.{◌≡◌, ◌<◌, ◌≤◌, ◌+◌, ◌-◌, ◌⊎◌, min, MatchOption, Some, None, drop, length};
ghost use Rattle.mcrl2_text.specs.Bytes.{ReadsNext};
ghost use Rattle.mcrl2_text.specs.Texts.{text_at, text_named};

/// A text under a name.
#[derive(Drop)]
pub struct MemText {
    /// The name that the text is opened by.
    pub name: String,
    /// Its bytes.
    pub text: Vec<u8>,
}

/// The place of the first text of that name.
pub(crate) fn place_of(texts: &[MemText], name: &str) -> Option<usize>
    ensures { MatchOption result (text_named texts.now name.now ≡ None) (λ place. text_named texts.now name.now ≡ Some (text_at texts.now place)) }
{
    for (i, text) in texts.iter().enumerate() {
        if text.name.as_str() == name {
            return Some(i);
        }
    }
    None
}

/// The bytes of the text at a place, and none past the last.
pub(crate) fn bytes_at(texts: &[MemText], place: usize) -> &[u8]
    ensures { result.now ≡ text_at texts.now place }
{
    match texts.get(place) {
        Some(text) => &text.text,
        None => &[],
    }
}

/// Copies the next bytes of a text, at most `most`, into the front of a buffer, and says how many.
pub(crate) fn copy_next(text: &[u8], at: usize, most: usize, buf: &mut [u8]) -> usize
    requires most { 0 < most }
    requires room { 0 < length buf.old }
    ensures count { result ≡ min (length (drop at text.now)) (min most (length buf.old)) }
    ensures within { at + result ≤ length text.now ⊎ result ≡ 0 }
    ensures next { ReadsNext (drop at text.now) (Some (drop (at + result) text.now)) buf.new result }
{
    let n = text.len().saturating_sub(at).min(most).min(buf.len());
    if n > 0 {
        buf[..n].copy_from_slice(&text[at..at + n]);
    }
    n
}
