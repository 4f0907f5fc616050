//! The layout of a file of vectors.
use anyhow::Context;
use std::alloc::Global;
use std::collections::BTreeMap;

/// One vector: its count, as written, and its fields by name.
#[derive(Drop)]
pub struct Vector {
    pub count: String,
    fields: BTreeMap<String, Vec<u8>>,
}

impl Vector {
    fn new(alloc: Global) -> Vector {
        Vector {
            count: String::new(alloc),
            fields: BTreeMap::new(alloc),
        }
    }

    /// The bytes of the field `name`.
    pub fn field(&self, name: &str) -> anyhow::Result<&[u8]> {
        let bytes = self.fields.get(name).context("a vector lacks a field")?;
        Ok(bytes.as_slice())
    }

    /// Takes in one line `NAME = VALUE`.
    fn take_line(&mut self, alloc: Global, name: &str, value: &str) -> anyhow::Result<()> {
        if name == "Count" {
            self.count = String::from_str(alloc, value)?;
            return Ok(());
        }
        let bytes = hexadecimal::decode(alloc, value)?.context("a field is not hexadecimal")?;
        self.fields.insert(String::from_str(alloc, name)?, bytes)?;
        Ok(())
    }
}

/// The vectors of a file, in order.
pub fn parse(alloc: Global, text: &str) -> anyhow::Result<Vec<Vector>> {
    let mut all = Vec::new(alloc);
    for (name, value) in text.lines().filter_map(|line| line.split_once('=')) {
        let name = name.trim();
        if name == "Count" {
            all.push(Vector::new(alloc))?;
        }
        all.last_mut()
            .context("a file of vectors begins with a count")?
            .take_line(alloc, name, value.trim())?;
    }
    Ok(all)
}
