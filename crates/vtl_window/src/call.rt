// A call over a window, lent.
use vtl_text::Txt;
use vtl_tree::{AnalyticOp, Window};

/// An operator, the component whose cells it sees (`rank` has none), and the window.
#[derive(Clone, Copy)]
pub(crate) struct Call<'a> {
    /// The operator.
    pub(crate) op: &'a AnalyticOp,
    /// The component.
    pub(crate) component: Option<&'a Txt>,
    /// The window.
    pub(crate) window: &'a Window,
}
