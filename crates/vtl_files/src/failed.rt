/// A file or a sink did not do what it was asked to do. The object's count of faults records it.
#[derive(Clone, Copy, Debug, PartialEq, Eq)]
pub struct Failed;
