//! The catalogue as a table: a row for each closure, with its codes, its words and its answer.
//!
//! What `td plan` says of a closure, what `td help closures` prints and the tables of docs/CATALOGUE.md are made of its row. The law
//! `laws::words_are_the_catalogue` says that the rows have exactly the codes of the catalogue. No proof ties the words of a row to
//! what its closure answers.

/// How the words of a row are made of two texts. P is how far a code is above the first one of its row.
#[derive(Clone, Copy)]
pub enum Form {
    /// The first text.
    Plain,
    /// P between the texts.
    Number,
    /// P behind the first text, and 1000 in the place of 0.
    Divisor,
    /// Both texts where P is 0. Else P + 1 stands between them, and an `s` behind them.
    Count,
    /// The first text, and which eight of those that it names: from number 8 P + 1 to 8 P + 8.
    Eight,
}

/// A closure of the catalogue, or closures whose codes follow one another: the first code and the last; what `td plan` says of it, as a
/// form and two texts; and what it answers, in full. An answer that is longer than a line of the help has a line feed at each line's end.
// (A tuple, since contracts name constants of tuples, and none of structs.)
pub type Row = (u16, u16, Form, &'static str, &'static str, &'static str);

/// The maps.
pub const MAPS: [Row; 23] = [
    (1, 1, Form::Plain, "the record", "", "the record"),
    (2, 2, Form::Plain, "value - 1", "", "(key, value - 1)"),
    (
        3,
        3,
        Form::Plain,
        "where the value is even",
        "",
        "the record where its value is even, else nothing",
    ),
    (
        4,
        4,
        Form::Plain,
        "where the value is odd",
        "",
        "the record where its value is odd, else nothing",
    ),
    (
        5,
        5,
        Form::Plain,
        "key / 2",
        "",
        "(key / 2 rounded down, value)",
    ),
    (
        6,
        6,
        Form::Plain,
        "the record twice",
        "",
        "the record twice",
    ),
    (7, 7, Form::Plain, "the port as value", "", "(key, port)"),
    (
        8,
        8,
        Form::Plain,
        "where the value is above 0",
        "",
        "the record where its value is above 0, else nothing",
    ),
    (
        9,
        9,
        Form::Plain,
        "the next of keys 0 to 3",
        "",
        "(((key mod 4) + 1) mod 4, value)",
    ),
    (
        1000,
        1999,
        Form::Number,
        "key ",
        "",
        "(P, value): every record under one key",
    ),
    (
        2000,
        2999,
        Form::Divisor,
        "key / ",
        "",
        "(key / P rounded down, value)",
    ),
    (
        3000,
        3999,
        Form::Divisor,
        "key mod ",
        "",
        "(key mod P, value)",
    ),
    (
        4000,
        4999,
        Form::Divisor,
        "value mod ",
        "",
        "(key, value mod P), from 0 to P - 1, below 0 too",
    ),
    (
        5000,
        5999,
        Form::Number,
        "where the value is above ",
        "",
        "the record where its value is above P, else nothing",
    ),
    (
        6000,
        6999,
        Form::Number,
        "where the value is below ",
        "",
        "the record where its value is below P, else nothing",
    ),
    (
        7000,
        7999,
        Form::Number,
        "where the value is ",
        "",
        "the record where its value is P, else nothing",
    ),
    (
        8000,
        8999,
        Form::Divisor,
        "value / ",
        "",
        "(key, value / P rounded down), below 0 too: -1 / 10 is -1",
    ),
    (
        9000,
        9000,
        Form::Plain,
        "key and value exchanged",
        "",
        "(value, key): a value below 0 is the key 2^64 above it, and a key from 2^63 on the value 2^64 below it",
    ),
    (
        9001,
        9001,
        Form::Plain,
        "value negated",
        "",
        "(key, - value)",
    ),
    (
        9002,
        9002,
        Form::Plain,
        "absolute value",
        "",
        "(key, value without its sign)",
    ),
    (
        9003,
        9003,
        Form::Plain,
        "value * 1000000 + key mod 1000000",
        "",
        "(key, value x 1,000,000 + key mod 1,000,000): key and value in one value, whose order is the value's",
    ),
    (
        9004,
        9004,
        Form::Plain,
        "key from the value mod 1000000, value / 1000000",
        "",
        "(value mod 1,000,000, value / 1,000,000 rounded down): what 9003 put into one, apart",
    ),
    (
        9005,
        9005,
        Form::Plain,
        "the key as value",
        "",
        "(key, key), as 9000 has a key as a value",
    ),
];

/// The groups.
pub const GROUPS: [Row; 9] = [
    (
        20,
        20,
        Form::Plain,
        "number of items",
        "",
        "(key, number of items)",
    ),
    (
        21,
        21,
        Form::Plain,
        "sum of the values",
        "",
        "(key, sum of the values)",
    ),
    (22, 22, Form::Plain, "least value", "", "(key, least value)"),
    (
        23,
        23,
        Form::Plain,
        "greatest value",
        "",
        "(key, greatest value)",
    ),
    (
        24,
        24,
        Form::Plain,
        "least value of port 0 + least value of port 1",
        "",
        "of two sources or more: where ports 0 and 1 both have items:\n(key, least value of port 0 + least value of port 1); else nothing",
    ),
    (
        9100,
        9100,
        Form::Plain,
        "number of distinct values",
        "",
        "(key, number of values that differ)",
    ),
    (
        9101,
        9108,
        Form::Count,
        "the ",
        "greatest value",
        "(key, value) of each of the P + 1 last items: of one source, the greatest values",
    ),
    (
        9109,
        9109,
        Form::Plain,
        "average of the values",
        "",
        "(key, sum of the values / their number, rounded down)",
    ),
    (
        9110,
        9119,
        Form::Eight,
        "pairs of port 0 and port 1",
        "",
        "pairs of two sources: for each item of port 0, of value v, and each of port 1, of value w, (w as a key, v).\nThe pairs are counted from 0, by the item of port 0 and then by that of port 1:\nthose of the numbers 8 P to 8 P + 7",
    ),
];

/// The folds.
pub const FOLDS: [Row; 12] = [
    (
        40,
        40,
        Form::Plain,
        "total so far",
        "",
        "running total: a is the sum of all values so far, b the number of items so far; sends (key, a)",
    ),
    (
        41,
        41,
        Form::Plain,
        "last value, kept at every other time",
        "",
        "without a state: keeps the value of the last item and sends (key, 1); with one: keeps none and sends (key, 0)",
    ),
    (
        9200,
        9200,
        Form::Plain,
        "greatest so far",
        "",
        "a: the greatest value so far; sends (key, a)",
    ),
    (
        9201,
        9201,
        Form::Plain,
        "least so far",
        "",
        "a: the least value so far; sends (key, a)",
    ),
    (
        9202,
        9202,
        Form::Plain,
        "last value",
        "",
        "a: the value of the last item; sends (key, a)",
    ),
    (
        9203,
        9203,
        Form::Plain,
        "number of items so far",
        "",
        "a: the number of items so far; sends (key, a)",
    ),
    (
        9204,
        9204,
        Form::Plain,
        "average so far",
        "",
        "a: the sum of the values so far, b: their number; sends (key, a / b rounded down)",
    ),
    (
        9205,
        9205,
        Form::Plain,
        "two greatest so far",
        "",
        "a and b: the two greatest values so far; sends (key, a) and (key, b).\nA b of -2^63 stands for none, and is not sent",
    ),
    (
        9206,
        9206,
        Form::Plain,
        "balance, never below 0",
        "",
        "a: a before, or 0, and the values added one after another, where what is below 0 becomes 0; sends (key, a)",
    ),
    (
        9207,
        9207,
        Form::Plain,
        "values of port 0 times the last value of port 1",
        "",
        "a: the last value of port 1 so far; where there is one, and port 0 has items:\nsends (key, sum of port 0's values x a)",
    ),
    (
        9210,
        9219,
        Form::Eight,
        "values of port 0 with the last value of port 1",
        "",
        "a: the last value of port 1 so far. Where there is one, port 0's items are counted from 0:\nfor those of the numbers 8 P to 8 P + 7, each of value v, sends (v as a key, a)",
    ),
    (
        9300,
        9399,
        Form::Number,
        "sessions, a gap of more than ",
        " apart",
        "a: the greatest value so far, b: the number of sessions. One begins at the first value,\nand at each that is above a + P. Sends (key, b)",
    ),
];
