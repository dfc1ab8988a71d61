use std::alloc::{AllocError, Global};

/// The names that rows of a file have, each with the value that it stands for.
#[derive(Drop)]
pub(crate) struct Names<'a> {
    alloc: Global,
    values: Vec<(&'a str, &'a str)>,
}

impl<'a> Names<'a> {
    /// Returns no names.
    pub(crate) fn new(alloc: Global) -> Names<'a> {
        Names {
            alloc,
            values: Vec::new(alloc),
        }
    }

    /// Adds a name.
    pub(crate) fn add(&mut self, name: &'a str, value: &'a str) -> Result<(), AllocError> {
        self.values.push((name, value))?;
        Ok(())
    }

    /// Returns what a word stands for, if it is a name, and else the word.
    fn value_of<'b>(&self, word: &'b str) -> &'b str
    where
        'a: 'b,
    {
        let found = self.values.iter().find(|(name, _)| *name == word);
        found.map_or(word, |(_, value)| *value)
    }

    /// Returns a text with each name in it replaced by the value that it stands for.
    pub(crate) fn replaced(&self, text: &str) -> Result<String, AllocError> {
        let mut whole = String::new(self.alloc);
        let mut word = String::new(self.alloc);
        for character in text.chars() {
            if character.is_ascii_alphanumeric() || character == '_' || character == ':' {
                word.push(character)?;
                continue;
            }
            whole.push_str(self.value_of(word.as_str()))?;
            whole.push(character)?;
            word.clear();
        }
        whole.push_str(self.value_of(word.as_str()))?;
        Ok(whole)
    }
}
