// A sentence: texts, one behind the other, in which a name in braces stands for a value.
use crate::facts::Fact;
use std::fmt;

/// A sentence with what stands for its names.
#[derive(Drop)]
pub struct Message<'a> {
    /// One behind the other.
    pub texts: [&'static str; 3],
    pub facts: Vec<Fact<'a>>,
}

impl Message<'_> {
    // Writes what stands for a name, or where nothing does, the name in its braces.
    fn write_value<W: fmt::Write>(&self, f: &mut fmt::Formatter<W>, name: &str) -> fmt::Result {
        match self.facts.as_slice().iter().find(|fact| fact.name == name) {
            Some(fact) => write!(f, "{}", fact.value),
            None => write!(f, "{{{name}}}"),
        }
    }

    // Writes a text with the values of its names.
    fn write_text<W: fmt::Write>(&self, f: &mut fmt::Formatter<W>, text: &str) -> fmt::Result {
        'pieces: for piece in text.split('{') {
            match piece.split_once('}') {
                Some((name, rest)) => {
                    self.write_value(f, name)?;
                    write!(f, "{rest}")?;
                }
                None => write!(f, "{piece}")?,
            }
        }
        Ok(())
    }
}

impl fmt::Display for Message<'_> {
    fn fmt<W: fmt::Write>(&self, f: &mut fmt::Formatter<W>) -> fmt::Result {
        let [first, second, third] = self.texts;
        self.write_text(f, first)?;
        self.write_text(f, second)?;
        self.write_text(f, third)
    }
}
