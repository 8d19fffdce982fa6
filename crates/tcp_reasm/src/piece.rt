ghost use Rattle.std.specs.Prelude.{◌≡◌};
ghost use Rattle.tcp_reasm.specs.Reassembly.{piece};

/// The offset and the bytes of what is left of a text when the bytes before RCV.NXT are cut off.
pub(crate) fn piece_of(offset: i64, text: &[u8]) -> (usize, &[u8])
    ensures start { result.0 ≡ (piece offset text.now).start }
    ensures text { result.1.now ≡ (piece offset text.now).text }
{
    if offset < 0 {
        let before = (offset.unsigned_abs() as usize).min(text.len());
        (0, &text[before..])
    } else {
        (offset as usize, text)
    }
}
