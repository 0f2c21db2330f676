//! Names on one line.
ghost use Rattle.std.specs.Prelude.{◌≡◌, ◌∷◌, [], Some, IfNone, IfSome};
ghost use Rattle.std.specs.Char.{encode_utf8};
ghost use Rattle.std.specs.Fmt.{WritesOnOk};
ghost use Rattle.tox_text.specs.Names.{escaped, is_bidi_control, visible, visible_name};
ghost use Rattle.tox_text.specs.Printing.{IsWorking, Prints};

use crate::printer::SizedPrinter;
use std::fmt;
use tox_time::{EndFault, Sink};

/// The first character of Unicode's block "General Punctuation", in which those stand that order text.
const GENERAL_PUNCTUATION: u32 = 0x2000;

/// How many bytes a character takes in UTF-8, at most.
const MAX_LEN_UTF8: usize = 4;

/// A name that keeps to its line where it is displayed, as [`Part::Name`](crate::Part) is printed.
#[derive(Clone, Copy, Debug, PartialEq, Eq)]
pub struct VisibleName<'a>(pub &'a str);

impl<'a> fmt::Display for VisibleName<'a> {
    ghost output = { λ name. Some (visible_name name.0.now) };

    fn fmt<W: fmt::Write>(&self, f: &mut fmt::Formatter<W>) -> fmt::Result {
        for letter in self.0.chars() {
            display_letter(letter, f)?;
        }
        Ok(())
    }
}

/// What stands for a character that would break a line or order its text anew.
#[derive(Clone, Copy)]
struct Escape {
    sign: &'static str,
    byte: u8,
}

/// The escape of a character of a name. The others are printed as they stand.
fn escape_of(letter: char) -> Option<Escape>
    ensures escape { IfSome result (λ escape. visible letter ≡ escaped escape.sign.now escape.byte) }
    ensures plain { IfNone result (visible letter ≡ encode_utf8 letter) }
{
    if letter.is_control() {
        Some(Escape {
            sign: "\\x",
            byte: letter as u8,
        })
    } else if is_bidi_control(letter) {
        Some(Escape {
            sign: "\\u20",
            byte: (letter as u32 - GENERAL_PUNCTUATION) as u8,
        })
    } else {
        None
    }
}

fn is_bidi_control(letter: char) -> bool
    ensures { result ≡ is_bidi_control letter }
{
    matches!(letter, '\u{202a}'..='\u{202e}' | '\u{2066}'..='\u{2069}')
}

fn display_letter<W: fmt::Write>(letter: char, f: &mut fmt::Formatter<W>) -> fmt::Result
    ensures { WritesOnOk W.write_str_gives f.old result (visible letter) f.new }
{
    match escape_of(letter) {
        Some(escape) => display_escape(escape, f),
        None => f.write_char(letter),
    }
}

fn display_escape<W: fmt::Write>(escape: Escape, f: &mut fmt::Formatter<W>) -> fmt::Result
    ensures { WritesOnOk W.write_str_gives f.old result (escaped escape.sign.now escape.byte) f.new }
{
    let mut digits = [0; 2];
    hex::encode_to_slice([escape.byte], &mut digits).unwrap();
    let Ok(text) = str::from_utf8(&digits) else {
        unreachable!();
    };
    f.write_str(escape.sign)?;
    f.write_str(text)
}

/// Prints a name that keeps to its line.
pub(crate) fn print_name<W: Sink, const ROOM: usize>(
    printer: &mut SizedPrinter<'_, W, ROOM>,
    name: &str,
) -> Result<(), EndFault>
    requires { IsWorking W.Sink printer.old }
    ensures { Prints W.Sink result printer.old printer.new (visible_name name.now) }
{
    for letter in name.chars() {
        print_letter(printer, letter)?;
    }
    Ok(())
}

fn print_letter<W: Sink, const ROOM: usize>(
    printer: &mut SizedPrinter<'_, W, ROOM>,
    letter: char,
) -> Result<(), EndFault>
    requires { IsWorking W.Sink printer.old }
    ensures { Prints W.Sink result printer.old printer.new (visible letter) }
{
    match escape_of(letter) {
        Some(escape) => print_escape(printer, escape),
        None => {
            let mut room = [0; MAX_LEN_UTF8];
            printer.put(letter.encode_utf8(&mut room).as_bytes())
        }
    }
}

fn print_escape<W: Sink, const ROOM: usize>(
    printer: &mut SizedPrinter<'_, W, ROOM>,
    escape: Escape,
) -> Result<(), EndFault>
    requires { IsWorking W.Sink printer.old }
    ensures { Prints W.Sink result printer.old printer.new (escaped escape.sign.now escape.byte) }
{
    printer.put(escape.sign.as_bytes())?;
    printer.put_hex(&[escape.byte])
}
