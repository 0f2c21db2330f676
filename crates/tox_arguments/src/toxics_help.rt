//! The help of toxics: of all types, and of one.
use std::fmt;
use tox_defs::{Attribute, MAX_TOXICITY, Toxic};

/// How many columns an attribute's name and its placeholder have.
const FORM_WIDTH: usize = 23;

/// The toxics with their attributes, as `toxi help toxics` prints them.
#[derive(Clone, Copy)]
pub struct ToxicsHelp;

/// A type of toxics with its attributes, as `toxi help TYPE` prints it.
#[derive(Clone, Copy)]
pub struct ToxicHelp(pub Toxic);

impl fmt::Display for ToxicsHelp {
    fn fmt<W: fmt::Write>(&self, f: &mut fmt::Formatter<W>) -> fmt::Result {
        f.write_str(
            "A TOXIC is a type, or a type, a colon and pairs of a key and a number, separated by commas:\n\n",
        )?;
        for toxic in &Toxic::EACH_TYPE {
            display_type(toxic, f)?;
        }
        display_keys(f)
    }
}

impl fmt::Display for ToxicHelp {
    fn fmt<W: fmt::Write>(&self, f: &mut fmt::Formatter<W>) -> fmt::Result {
        display_type(&self.0, f)?;
        display_keys(f)
    }
}

/// A type in a line, and each of its attributes.
fn display_type<W: fmt::Write>(toxic: &Toxic, f: &mut fmt::Formatter<W>) -> fmt::Result {
    write!(f, "  {:<13} {}\n", toxic.name(), toxic.words())?;
    for attribute in toxic.attributes() {
        display_attribute(attribute, f)?;
    }
    Ok(())
}

fn display_attribute<W: fmt::Write>(
    attribute: &Attribute,
    f: &mut fmt::Formatter<W>,
) -> fmt::Result {
    let placeholder = attribute.unit.placeholder();
    write!(f, "    {}={placeholder}", attribute.name)?;
    for _ in attribute.name.len().saturating_add(placeholder.len())..FORM_WIDTH {
        f.write_str(" ")?;
    }
    write!(f, "{}{}\n", attribute.words, Range(attribute))
}

/// The range of an attribute behind its words. One that ends at the largest number has its bound in the words.
#[derive(Clone, Copy)]
struct Range<'a>(&'a Attribute);

impl<'a> fmt::Display for Range<'a> {
    fn fmt<W: fmt::Write>(&self, f: &mut fmt::Formatter<W>) -> fmt::Result {
        let limits = self.0.limits;
        if limits.most == u64::MAX {
            return Ok(());
        }
        write!(f, "; {} to {}", limits.least, limits.most)
    }
}

/// What holds for the keys of all types.
fn display_keys<W: fmt::Write>(f: &mut fmt::Formatter<W>) -> fmt::Result {
    write!(
        f,
        "\nMS are milliseconds, MICROS microseconds, KB kilobytes of 1000 bytes a second. A key that is absent is 0, so `rate` and
`average_size` have to be given. Each type also has toxicity=N, the chance in thousandths that a link meets the toxic:
0 to {MAX_TOXICITY} [default: {MAX_TOXICITY}]"
    )
}
