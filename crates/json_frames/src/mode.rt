// Where a JSON text without escapes stands behind some of its bytes.
ghost use Rattle.std.specs.Prelude.{◌≡◌, ◌||◌, fold};
ghost use Rattle.json.specs.Word.{is_operator, is_space};
ghost use Rattle.json_frames.specs.Frame.{step, is_between};
ghost use Rattle.json_frames.specs.declared.mode.Mode.TheVariants.{Between};

/// What goes on behind the bytes so far.
#[derive(Clone, Copy, Debug, PartialEq, Eq)]
pub enum Mode {
    /// Nothing.
    Between,
    /// A number or a word.
    InWord,
    /// A string.
    InString,
}

fn ends_word(byte: u8) -> bool
    ensures { result ≡ is_operator byte || is_space byte }
{
    matches!(
        byte,
        b'{' | b'}' | b'[' | b']' | b':' | b',' | b' ' | b'\t' | b'\n' | b'\r'
    )
}

fn step(mode: Mode, byte: u8) -> Mode
    ensures { result ≡ step mode byte }
{
    match mode {
        Mode::InString if byte == b'"' => Mode::Between,
        Mode::InString => Mode::InString,
        Mode::Between if byte == b'"' => Mode::InString,
        _ if ends_word(byte) => Mode::Between,
        _ => Mode::InWord,
    }
}

/// Whether no string and no word goes on behind a text that begins between them.
pub fn is_closed(text: &[u8]) -> bool
    ensures { result ≡ is_between (fold step Between text.now) }
{
    let mode = text
        .iter()
        .fold(Mode::Between, |mode, byte| step(mode, *byte));
    matches!(mode, Mode::Between)
}
