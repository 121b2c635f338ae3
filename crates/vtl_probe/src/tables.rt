// Tables of cases.
use crate::report::{Report, Tally};
use crate::rows::Row;
use crate::trouble::{CaseErr, Trouble};
use crate::words::looked_up;
use crate::{datasets, order, sql, structures, syntax, tokens, types};
use csv::{Reader, ReaderBuilder, StringRecord};
use std::alloc::Global;

// What the cases of a table are about.
#[derive(Clone, Copy)]
pub(crate) enum Table {
    // Two values, of which the first comes before the second.
    Order,
    // Periods that are shifted.
    Periods,
    // What may be a name.
    Names,
    // The tokens of texts.
    Tokens,
    // How many statements a script has, or where its fault is.
    Syntax,
    // The same of a script of SQL.
    SqlSyntax,
    // The same of the text that a script of SQL is printed as.
    SqlAgain,
    // How expressions of SQL are printed.
    Groups,
    // What scripts of SQL are typed as, or their faults.
    SqlTypes,
    // What scripts are typed as over structures, or their faults.
    Types,
    // What structures files declare, or their faults.
    Structures,
    // What CSV files of a data set hold, or their faults.
    Datasets,
}

impl Table {
    // The table that the word names.
    pub(crate) fn named(word: &str) -> Option<Table> {
        let table = [
            ("order", Table::Order),
            ("periods", Table::Periods),
            ("names", Table::Names),
            ("lexed", Table::Tokens),
            ("syntax", Table::Syntax),
            ("sql_syntax", Table::SqlSyntax),
            ("sql_again", Table::SqlAgain),
            ("sql_groups", Table::Groups),
            ("sql_types", Table::SqlTypes),
            ("structures", Table::Structures),
            ("datasets", Table::Datasets),
        ];
        looked_up(word, &table)
    }

    // The header, and how many of its columns are given; the others are wanted.
    fn header(self) -> (&'static str, usize) {
        match self {
            Table::Order => ("kind,low,high", 3),
            Table::Periods => ("period,by,result", 2),
            Table::Names => ("text,word,reserved,name,component", 1),
            Table::Tokens => ("text,tokens", 1),
            Table::Syntax | Table::SqlSyntax | Table::SqlAgain => ("text,done,byte", 1),
            Table::Groups => ("given,printed", 1),
            Table::Types => ("scale,script,answer", 2),
            Table::SqlTypes | Table::Structures => ("text,answer", 1),
            Table::Datasets => ("scale,rounding,structures,text,answer", 4),
        }
    }

    // What comes of a case, as its wanted columns have it. A table of types has structures.
    fn came(self, alloc: Global, declared: &str, row: &Row) -> Result<String, CaseErr> {
        let text = row.field(0);
        Ok(match self {
            Table::Order => return order::ordered(alloc, row),
            Table::Periods => return order::shifted(alloc, row),
            Table::Types => return types::outcome(alloc, declared, row),
            Table::Datasets => return datasets::rewritten(alloc, row),
            Table::Names => order::named(alloc, row)?,
            Table::Tokens => tokens::listed(alloc, text)?,
            Table::Syntax => syntax::outcome(alloc, text)?,
            Table::SqlSyntax => sql::outcome(alloc, text)?,
            Table::SqlAgain => sql::outcome_again(alloc, text)?,
            Table::Groups => sql::grouped(alloc, text)?,
            Table::SqlTypes => sql::typed(alloc, text)?.text,
            Table::Structures => structures::declared(alloc, text)?,
        })
    }
}

// The verdict on a table.
pub(crate) fn verdict<'a>(
    alloc: Global,
    table: Table,
    declared: &str,
    text: &str,
) -> Result<Report, Trouble<'a>> {
    let mut tally = Tally::new(alloc);
    judge_all(alloc, table, declared, text, &mut tally)?;
    Ok(tally.report()?)
}

// Counts each case of a table. An empty file has an empty header.
fn judge_all<'a>(
    alloc: Global,
    table: Table,
    declared: &str,
    text: &str,
    tally: &mut Tally,
) -> Result<(), Trouble<'a>> {
    let mut reader = ReaderBuilder::new()
        .has_headers(false)
        .flexible(true)
        .from_reader(alloc, text.as_bytes());
    let mut fields = StringRecord::new(alloc);
    is_read(&mut reader, &mut fields)?;
    check_header(alloc, table, &Row { fields: &fields })?;
    let width = fields.len();
    for case in 1..=text.len() {
        if !is_read(&mut reader, &mut fields)? {
            break;
        }
        if fields.len() != width {
            let why = "not as many fields as the header has";
            return Err(Trouble::Case { case, why });
        }
        judge(
            alloc,
            table,
            declared,
            &Row { fields: &fields },
            case,
            tally,
        )?;
    }
    Ok(())
}

// Whether there is a line. Fields of a text are texts, so that only memory can run out.
fn is_read<'a>(reader: &mut Reader<&[u8]>, fields: &mut StringRecord) -> Result<bool, Trouble<'a>> {
    match reader.read_record(fields) {
        Ok(is_read) => Ok(is_read),
        Err(_) => Err(Trouble::Memory),
    }
}

fn check_header<'a>(alloc: Global, table: Table, row: &Row) -> Result<(), Trouble<'a>> {
    let (header, _) = table.header();
    if row.from(alloc, 0)?.as_str() == header {
        Ok(())
    } else {
        Err(Trouble::Header(header))
    }
}

fn judge<'a>(
    alloc: Global,
    table: Table,
    declared: &str,
    row: &Row,
    case: usize,
    tally: &mut Tally,
) -> Result<(), Trouble<'a>> {
    match table.came(alloc, declared, row) {
        Ok(came) => {
            let (_, given) = table.header();
            tally.count(case, &row.from(alloc, given)?, &came)?;
            Ok(())
        }
        Err(error) => Err(Trouble::Case {
            case,
            why: error.why(),
        }),
    }
}
