// The lines before a file's text.

ghost use Rattle.std.specs.Prelude.{◌≡◌, ◌≤◌, [], IfErr, IfOk, length};
ghost use Rattle.kex_code.specs.Codes.{Begins};
ghost use Rattle.kex_tabfile.specs.Lines.{head_text};
ghost use Rattle.kex_tabfile.specs.Readers.{ReadsBytes, most_bytes};
ghost use Rattle.kex_tabfile.specs.TableFiles.{IsBadHead};

use crate::check::MOST_BYTES;
use crate::reader::TableReader;
use crate::refusal::TableRefusal;
use crate::spell::push_size_line;
use std::alloc::Global;

/// Reads the lines before the text, and the text.
pub(crate) fn take_head<'b>(
    alloc: Global,
    reader: &mut TableReader<'b>,
) -> Result<&'b [u8], TableRefusal>
    requires { reader.old.before ≡ [] }
    ensures read { IfOk result (λ text. ReadsBytes reader.old (head_text text.now) reader.new) }
    ensures bad { IfErr result (λ e. IsBadHead reader.old.rest e) }
{
    reader.take(b"kextable 1\n")?;
    let Some(size) = reader.number(b"text ".len(), MOST_BYTES) else {
        return Err(reader.bad_line());
    };
    let mut line = Vec::new(alloc);
    push_size_line(size, &mut line)?;
    match reader.take_text(&line, size as usize) {
        Some(text) => Ok(text),
        None => Err(reader.bad_line()),
    }
}

/// The program text in a file, if the lines before it are right.
pub fn text_in<'b>(alloc: Global, bytes: &'b [u8]) -> Result<&'b [u8], TableRefusal>
    requires { length bytes.now ≤ most_bytes }
    ensures text { IfOk result (λ text. Begins bytes.now (head_text text.now)) }
    ensures bad { IfErr result (λ e. IsBadHead bytes.now e) }
{
    let mut reader = TableReader::new(bytes);
    take_head(alloc, &mut reader)
}
