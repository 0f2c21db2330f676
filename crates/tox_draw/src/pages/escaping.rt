//! Texts of others in a page.
ghost use Rattle.std.specs.Prelude.{Some};
ghost use Rattle.std.specs.Char.{encode_utf8};
ghost use Rattle.std.specs.Fmt.{WritesOnOk};
ghost use Rattle.tox_draw.specs.pages.Escaping.{html};

use std::fmt;

/// A text with the characters escaped that mean something in HTML.
#[derive(Clone, Copy)]
pub(crate) struct Escaped<'a>(pub(crate) &'a str);

impl fmt::Display for Escaped<'_> {
    ghost output = { λ escaped. Some (html escaped.0.now) };

    fn fmt<W: fmt::Write>(&self, f: &mut fmt::Formatter<W>) -> fmt::Result {
        for letter in self.0.chars() {
            write_letter(f, letter)?;
        }
        Ok(())
    }
}

/// Writes a letter.
fn write_letter<W: fmt::Write>(f: &mut fmt::Formatter<W>, letter: char) -> fmt::Result
    ensures { WritesOnOk W.write_str_gives f.old result (html (encode_utf8 letter)) f.new }
{
    if letter == '&' {
        return f.write_str("&amp;");
    }
    if letter == '<' {
        return f.write_str("&lt;");
    }
    if letter == '>' {
        return f.write_str("&gt;");
    }
    if letter == '"' {
        return f.write_str("&quot;");
    }
    f.write_char(letter)
}
