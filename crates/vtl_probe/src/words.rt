// The words of the command line.
use crate::tables::Table;
use crate::texts::View;
use crate::times::{Order, order_of};

// What is asked for.
pub(crate) enum Command<'a> {
    Table { table: Table, path: &'a str },
    Text { view: View, path: &'a str },
    Types { structures: &'a str, path: &'a str },
    Time(Order),
}

// The command that the words are.
pub(crate) fn command_of(words: &[String]) -> Option<Command> {
    let name = words.first()?.as_str();
    let first = words.get(1)?.as_str();
    match words.len() {
        2 => with_one(name, first),
        3 => with_two(name, first, words.get(2)?.as_str()),
        _ => None,
    }
}

// What the word stands for in a table.
pub(crate) fn looked_up<T: Copy>(word: &str, table: &[(&str, T)]) -> Option<T> {
    for (name, value) in table {
        if *name == word {
            return Some(*value);
        }
    }
    None
}

fn with_one<'a>(name: &str, path: &'a str) -> Option<Command<'a>> {
    match View::named(name) {
        Some(view) => Some(Command::Text { view, path }),
        None => Some(Command::Table {
            table: Table::named(name)?,
            path,
        }),
    }
}

fn with_two<'a>(name: &str, first: &'a str, second: &'a str) -> Option<Command<'a>> {
    match name {
        "types" => Some(Command::Types {
            structures: first,
            path: second,
        }),
        "time" => Some(Command::Time(order_of(first, second)?)),
        _ => None,
    }
}
