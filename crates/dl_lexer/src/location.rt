//! Lines and columns.

ghost use Rattle.std.specs.Prelude.{◌≡◌, ◌≤◌, length};
ghost use Rattle.dl_limits.specs.Limits.{most_text};
ghost use Rattle.dl_lexer.specs.Lines.{line_of, column_of};

/// The line and the column of a place, counted from 1: 1 plus the newlines before it, and 1 plus
/// the bytes since the last of these. Takes no memory.
pub fn line_col(source: &[u8], at: u32) -> (u32, u32)
    requires within { at ≤ length source.now }
    requires short { length source.now ≤ most_text }
    ensures line { result.0 ≡ line_of source.now at }
    ensures column { result.1 ≡ column_of source.now at }
{
    let mut line = 1;
    let mut column = 1;
    for byte in &source[..at as usize] {
        if *byte == b'\n' {
            line += 1;
            column = 1;
        } else {
            column += 1;
        }
    }
    (line, column)
}
