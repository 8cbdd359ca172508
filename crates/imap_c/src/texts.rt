//! Texts that are put into a caller's buffer.

ghost use Rattle.std.specs.Prelude.{◌≡◌};
ghost use Rattle.imap_c.specs.Texts.{filled, Puts};

/// What a call answers that puts out a text.
#[repr(C)]
#[derive(Clone, Copy)]
pub struct TextAnswer {
    /// 0: there is a text. Any other number: there is none, and why.
    pub outcome: u32,
    /// How many bytes the text has, whether they fit into the buffer or not; 0 where there is none.
    pub size: usize,
}

// As much of the text as fits.
fn fill(out: &mut [u8], text: &[u8])
    ensures { out.new ≡ filled text.now out.old }
{
    let fits = text.len().min(out.len());
    out[..fits].copy_from_slice(&text[..fits]);
}

/// Puts the text into the buffer, as much as fits.
pub(crate) fn put(out: &mut [u8], text: &[u8]) -> TextAnswer
    ensures { Puts text.now out.old out.new result }
{
    fill(out, text);
    TextAnswer {
        outcome: 0,
        size: text.len(),
    }
}

/// There is no text, and this is why.
pub(crate) fn without_text(outcome: u32) -> TextAnswer
    ensures { result ≡ record { outcome = outcome; size = 0 } }
{
    TextAnswer { outcome, size: 0 }
}
