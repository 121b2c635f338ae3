// What is timed.
ghost use Rattle.std.specs.Prelude.{◌≡◌, ◌↔◌, ◌≤◌, codes, Some, IfSome};

// An operation on decimal numbers.
#[derive(Clone, Copy)]
pub(crate) enum Operation {
    Add,
    Mul,
    Div,
    Read,
    Write,
}

// An operation, and how many times it is run.
#[derive(Clone, Copy)]
pub(crate) struct Order {
    pub operation: Operation,
    pub count: u64,
}

// The most times that an operation is run.
const MOST: u64 = 1_000_000_000;

// The operation that the word names.
fn operation_of(word: &str) -> Option<Operation>
    ensures add { (result ≡ Some Operation.Add) ↔ (word.now ≡ codes "add") }
    ensures mul { (result ≡ Some Operation.Mul) ↔ (word.now ≡ codes "mul") }
    ensures div { (result ≡ Some Operation.Div) ↔ (word.now ≡ codes "div") }
    ensures read { (result ≡ Some Operation.Read) ↔ (word.now ≡ codes "read") }
    ensures write { (result ≡ Some Operation.Write) ↔ (word.now ≡ codes "write") }
{
    match word {
        "add" => Some(Operation::Add),
        "mul" => Some(Operation::Mul),
        "div" => Some(Operation::Div),
        "read" => Some(Operation::Read),
        "write" => Some(Operation::Write),
        _ => None,
    }
}

// The count that the word spells, where it is not over the most.
fn count_of(word: &str) -> Option<u64>
    ensures { IfSome result (λ n. n ≤ 1000000000) }
{
    let count: u64 = word.parse().ok()?;
    if count <= MOST { Some(count) } else { None }
}

// The order that the words spell: an operation and a count.
pub(crate) fn order_of(operation: &str, count: &str) -> Option<Order>
    ensures { IfSome result (λ order. order.count ≤ 1000000000) }
{
    Some(Order {
        operation: operation_of(operation)?,
        count: count_of(count)?,
    })
}
