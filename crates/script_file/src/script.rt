ghost use Rattle.std.specs.Prelude.{◌≡◌, ◌*◌, ◌≤◌, Ok, length, IfOk, IfErr};
ghost use Rattle.script_file.specs.Lines.{IsScriptRefusal, script_of, word_of_line};

use show_text::word_from_hex;
use std::alloc::Global;

/// The bytes of a line: sixteen digits and LF.
const LINE: usize = 17;

/// Why a script can't be read.
#[derive(Clone, Copy, Debug, PartialEq, Eq)]
pub enum ScriptError {
    /// The number, from 1, of the first line that isn't sixteen digits and LF.
    Line(u64),
    /// There is no memory for its words.
    OutOfMemory,
}

/// The word of a line, counted from 0; none where the line isn't sixteen digits and LF.
fn line_word(bytes: &[u8], line: usize) -> Option<u64>
    requires within { 17 * line ≤ length bytes.now }
    ensures word { result ≡ word_of_line bytes.now line }
{
    let start = LINE * line;
    if bytes.len() - start < LINE || bytes[start + 16] != b'\n' {
        return None;
    }
    word_from_hex(&bytes[start..start + 16])
}

/// The words of a script file: each line is sixteen hexadecimal digits, in either case, and LF, the last
/// one too; a rest of fewer bytes counts as a line, and an empty file has none.
///
/// Words come only where every line is so. `Line` comes only where a line isn't so, and has the first one;
/// where memory is out before that line is reached, `OutOfMemory` comes in its place.
pub fn read_script(alloc: Global, bytes: &[u8]) -> Result<Vec<u64>, ScriptError>
    ensures words { IfOk result (λ words. script_of bytes.now ≡ Ok words.items) }
    ensures refused { IfErr result (IsScriptRefusal (script_of bytes.now)) }
{
    let count = bytes.len().div_ceil(LINE);
    let mut words = Vec::new(alloc);
    'lines: for line in 0..count {
        let word = line_word(bytes, line).ok_or(ScriptError::Line(line as u64 + 1))?;
        words.push(word).map_err(|_| ScriptError::OutOfMemory)?;
    }
    Ok(words)
}
