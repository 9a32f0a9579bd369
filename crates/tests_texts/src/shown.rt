use cw_base::OutOfMemory;

/// Puts these words behind what is shown.
pub(crate) fn words(shown: &mut Vec<u8>, words: &str) -> Result<(), OutOfMemory> {
    shown.extend_from_slice(words.as_bytes())?;
    Ok(())
}

/// Puts a line of these words behind what is shown.
pub(crate) fn line(shown: &mut Vec<u8>, line: &str) -> Result<(), OutOfMemory> {
    words(shown, line)?;
    words(shown, "\n")
}

/// Puts a number behind what is shown.
pub(crate) fn number(shown: &mut Vec<u8>, number: i64) -> Result<(), OutOfMemory> {
    let text = format!(in *shown.allocator(); "{number}")?;
    words(shown, text.as_str())
}

/// Puts a line of these words and this number behind what is shown.
pub(crate) fn numbered(shown: &mut Vec<u8>, before: &str, counted: i64) -> Result<(), OutOfMemory> {
    words(shown, before)?;
    number(shown, counted)?;
    words(shown, "\n")
}

/// Puts a line of a fault and where it is behind what is shown.
pub(crate) fn fault(
    shown: &mut Vec<u8>,
    kind: &str,
    place: &str,
    at: u32,
) -> Result<(), OutOfMemory> {
    words(shown, kind)?;
    numbered(shown, place, i64::from(at))
}

/// Puts a text that was printed behind what is shown.
pub(crate) fn printed(
    text: Result<Vec<u8>, OutOfMemory>,
    shown: &mut Vec<u8>,
) -> Result<(), OutOfMemory> {
    let text = text?;
    shown.extend_from_slice(text.as_slice())?;
    Ok(())
}
