// New names of components.

use vtl_text::Txt;

/// `from to to`
#[derive(Debug)]
pub struct Renaming {
    /// The name of a component.
    pub from: Txt,
    /// Its new name.
    pub to: Txt,
}

// Written out, so that a proof above sees one call and not the drop of each part.
impl Drop for Renaming {
    fn drop(self) {
        let Renaming {
            from: _from,
            to: _to,
        } = self;
    }
}
