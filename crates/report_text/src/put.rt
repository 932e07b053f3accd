//! Texts are gathered.
ghost use Rattle.std.specs.Prelude.{◌≡◌, ◌++◌, decimal, OnOk};
ghost use Rattle.script_words.specs.Words.{word_text};
ghost use Rattle.report_text.specs.Words.{path_word, hexadecimal};

use crate::NoMemory;
use itoa::Buffer;
use res_path::Path;
use script_words::{hex_digit, put_bytes, put_word};

/// Appends the text.
pub fn put_text(out: &mut Vec<u8>, text: &str) -> Result<(), NoMemory>
    ensures { OnOk result (out.new.items ≡ out.old.items ++ text.now) }
{
    put_bytes(out, text.as_bytes())
}

/// Appends the number in decimal.
pub fn put_number(out: &mut Vec<u8>, number: u64) -> Result<(), NoMemory>
    ensures { OnOk result (out.new.items ≡ out.old.items ++ decimal number) }
{
    let mut buffer = Buffer::new();
    put_text(out, buffer.format(number))
}

/// Appends a text and a number.
pub fn put_counted(out: &mut Vec<u8>, before: &str, number: u64) -> Result<(), NoMemory>
    ensures { OnOk result (out.new.items ≡ out.old.items ++ before.now ++ decimal number) }
{
    put_text(out, before)?;
    put_number(out, number)
}

/// Appends a text and a word.
pub fn put_named(out: &mut Vec<u8>, before: &str, word: &[u8]) -> Result<(), NoMemory>
    ensures { OnOk result (out.new.items ≡ out.old.items ++ before.now ++ word_text word.now) }
{
    put_text(out, before)?;
    put_word(out, word)
}

/// Appends a text and a path, which is written as a word.
pub fn put_path(out: &mut Vec<u8>, before: &str, path: &Path) -> Result<(), NoMemory>
    ensures { OnOk result (out.new.items ≡ out.old.items ++ before.now ++ path_word path.now) }
{
    put_named(out, before, path.as_str().as_bytes())
}

/// Appends the bytes in lower-case hexadecimal.
pub fn put_hexadecimal(out: &mut Vec<u8>, bytes: &[u8]) -> Result<(), NoMemory>
    ensures { OnOk result (out.new.items ≡ out.old.items ++ hexadecimal bytes.now) }
{
    for b in bytes {
        put_bytes(out, &[hex_digit(b / 16), hex_digit(b % 16)])?;
    }
    Ok(())
}
