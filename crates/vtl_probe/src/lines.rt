// Lines of a tree: each node on a line of its own, two spaces deeper than the node that it is a part of.
use std::alloc::{AllocError, Global};
use std::fmt;

// A text that is made line by line. That memory ran out is remembered, and reported when the text is asked for.
#[derive(Drop)]
pub(crate) struct Lines {
    text: String,
    level: usize,
    lacks_memory: bool,
}

impl Lines {
    pub(crate) fn new(alloc: Global) -> Lines {
        Lines {
            text: String::new(alloc),
            level: 0,
            lacks_memory: false,
        }
    }

    // The lines, where there was memory for all of them.
    pub(crate) fn into_text(self) -> Result<String, AllocError> {
        if self.lacks_memory {
            Err(AllocError)
        } else {
            Ok(self.text)
        }
    }

    fn add(&mut self, text: &str) {
        if self.text.push_str(text).is_err() {
            self.lacks_memory = true;
        }
    }

    fn indent(&mut self) {
        for _ in 0..self.level {
            self.add("  ");
        }
    }

    // A node that is called so.
    pub(crate) fn name(&mut self, name: &str) {
        self.indent();
        self.add(name);
        self.add("\n");
    }

    // A node that is shown as what it is.
    pub(crate) fn part<T: fmt::Debug>(&mut self, part: &T) {
        self.indent();
        if writeln!(self.text, "{part:?}").is_err() {
            self.lacks_memory = true;
        }
    }

    // A node that is called so; its parts follow, up to `close`.
    pub(crate) fn open(&mut self, name: &str) {
        self.name(name);
        self.enter();
    }

    // What follows are parts of the last node, up to `close`.
    pub(crate) fn enter(&mut self) {
        self.level = self.level.saturating_add(1);
    }

    pub(crate) fn close(&mut self) {
        self.level = self.level.saturating_sub(1);
    }
}
