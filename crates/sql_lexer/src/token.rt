// Tokens.
//
// A token has a spelling, by one function (`spelled`), which reading and writing cite; the longest token is the one
// that leaves least of the text, so `INNERJOIN` is two keywords.

use vtl_text::Txt;

/// A token of a text, with its place.
#[derive(Debug, Drop)]
pub struct Token {
    /// What it is.
    pub kind: TokenKind,
    /// The byte of the text at which it starts.
    pub start: usize,
    /// The byte after its last one.
    pub end: usize,
}

/// What a token is, with what it holds.
#[derive(Debug, Drop)]
pub enum TokenKind {
    /// A keyword or a mark.
    Word(Word),
    /// A name between two `"`; it holds the name that is meant, each doubled `"` once.
    Name(Txt),
    /// A text between two `'`; it holds the text that is meant, each doubled `'` once.
    Text(Txt),
    /// Digits.
    Int(Txt),
    /// Digits, a point and digits.
    Dec(Txt),
}

/// A keyword or a mark. Each stands before those that it begins with.
#[derive(Clone, Copy, Debug, PartialEq, Eq)]
pub enum Word {
    /// `<>`
    NotEqual,
    /// `<=`
    LessOrEqual,
    /// `>=`
    GreaterOrEqual,
    /// `||`
    Concat,
    /// `<`
    Less,
    /// `>`
    Greater,
    /// `=`
    Equal,
    /// `+`
    Plus,
    /// `-`
    Minus,
    /// `*`
    Star,
    /// `/`
    Slash,
    /// `(`
    Open,
    /// `)`
    Close,
    /// `,`
    Comma,
    /// `;`
    Semicolon,
    /// `.`
    Dot,
    /// `ABS`
    Abs,
    /// `ALL`
    All,
    /// `AND`
    And,
    /// `ASC`
    Asc,
    /// `AS`
    As,
    /// `AVG`
    Avg,
    /// `BETWEEN`
    Between,
    /// `BOOLEAN`
    Boolean,
    /// `BY`
    By,
    /// `CASE`
    Case,
    /// `CEIL`
    Ceil,
    /// `COALESCE`
    Coalesce,
    /// `CODES`
    Codes,
    /// `COUNT`
    Count,
    /// `CREATE`
    Create,
    /// `CROSS`
    Cross,
    /// `CURRENT`
    Current,
    /// `DATE`
    Date,
    /// `DESC`
    Desc,
    /// `DOWN`
    Down,
    /// `ELSE`
    Else,
    /// `END`
    End,
    /// `EXISTS`
    Exists,
    /// `EXPORT`
    Export,
    /// `FALSE`
    False,
    /// `FIRST_VALUE`
    FirstValue,
    /// `FLOOR`
    Floor,
    /// `FOLLOWING`
    Following,
    /// `FROM`
    From,
    /// `FULL`
    Full,
    /// `GROUP`
    Group,
    /// `HALF_EVEN`
    HalfEven,
    /// `HALF_UP`
    HalfUp,
    /// `HAVING`
    Having,
    /// `INNER`
    Inner,
    /// `INPUT`
    Input,
    /// `INSTR`
    Instr,
    /// `INTEGER`
    Integer,
    /// `IN`
    In,
    /// `IS`
    Is,
    /// `JOIN`
    Join,
    /// `KEY`
    Key,
    /// `LAG`
    Lag,
    /// `LAST_VALUE`
    LastValue,
    /// `LEAD`
    Lead,
    /// `LEFT`
    Left,
    /// `LENGTH`
    Length,
    /// `LTRIM`
    Ltrim,
    /// `MAX`
    Max,
    /// `MEDIAN`
    Median,
    /// `MIN`
    Min,
    /// `MOD`
    Mod,
    /// `NOT`
    Not,
    /// `NULL`
    Null,
    /// `NUMBER`
    Number,
    /// `ON`
    On,
    /// `ORDER`
    Order,
    /// `OR`
    Or,
    /// `OVER`
    Over,
    /// `PARTITION`
    Partition,
    /// `PERIOD_FREQ`
    PeriodFrequency,
    /// `PERIOD_SHIFT`
    PeriodShift,
    /// `PERIOD`
    Period,
    /// `PRECEDING`
    Preceding,
    /// `RANK`
    Rank,
    /// `RATIO_TO_REPORT`
    RatioToReport,
    /// `REPLACE`
    Replace,
    /// `ROUNDING`
    Rounding,
    /// `ROUND`
    Round,
    /// `ROWS`
    Rows,
    /// `ROW`
    Row,
    /// `RTRIM`
    Rtrim,
    /// `SCALE`
    Scale,
    /// `SELECT`
    Select,
    /// `SERIES`
    Series,
    /// `SET`
    Set,
    /// `SINGLE`
    Single,
    /// `SUBSTR`
    Substr,
    /// `SUM`
    Sum,
    /// `TABLE`
    Table,
    /// `TEXT`
    Text,
    /// `THEN`
    Then,
    /// `TRIM`
    Trim,
    /// `TRUE`
    True,
    /// `TRUNC`
    Trunc,
    /// `UNBOUNDED`
    Unbounded,
    /// `UNION`
    Union,
    /// `WHEN`
    When,
    /// `WHERE`
    Where,
    /// `XOR`
    Xor,
}
