// Which calls of files and sinks in memory fail.
//
// A plan of calls is a meaning with a default that tells none, as `held` is told or not: so files and a sink in
// memory say in the clauses of the trait what `chunk` and `fail` do, and no clause is written twice.

/// A method of `Files`.
#[derive(Clone, Copy, Debug, PartialEq, Eq)]
pub enum Method {
    Open,
    Read,
    Create,
    Write,
    Finish,
}

/// A call that is to fail: the one of this number, where the calls of each method are counted from 1.
/// A `read` with no file opened is not counted.
#[derive(Clone, Copy, Debug, PartialEq, Eq)]
pub struct FailAt {
    pub method: Method,
    pub number: u64,
}
