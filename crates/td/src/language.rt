//! The text on closures in text, which `td help closures` prints. `docs/CLOSURES.md` has it too.

/// How closures are written as text.
pub(crate) const LANGUAGE: &str =
    r#"Closures in text: what maps, groups and folds of a plan do, as formulas in a file

  td batch --closures FILE < INPUT              so do td run, td sim and td plan
  td format DISK PLAN M N K --closures FILE     those of a disk, which td feed and td stream then have: DISK.closures

A plan calls a closure by its kind and its code. Codes 10000 to 65535 are those of FILE, lower ones those of the catalogue.

  map 10000                             # of payments above 50.00 the whole units, under the day
    let day = key / 86400
    send day, val / 100 when val > 5000

  group 10001                           # the average of each key in an epoch, rounded down
    let total = 0, n = 0
    item total = total + val, n = n + 1
    send key, total / n

  fold 10002                            # tells a total when it rises above 1000; a record on port 1 closes the key
    let closed = 0
    item a = a + val when port = 0, closed = 1 when port = 1
    send key, a when a > 1000 and before_a <= 1000
    keep a, b when closed = 0

A map is called for each record. A group and a fold are called for each key that has records in an epoch, with these as its items, sorted by
port and value. A fold has a state of two numbers for each key, a and b, which it keeps from epoch to epoch.

A closure begins with its kind and its code, and ends where the next begins. '#' begins a comment. Each 'when E' may be left out.

  let NAME = E, ..           all           registers at the start, 8 at most; each is computed after those before it
  item NAME = E when E, ..   group, fold   at each item: a register, or a or b, changes; all see what was before the item
  each KEY, VAL when E       group, fold   at each item, after its changes: a record is sent
  send KEY, VAL when E       all           at the end: a record is sent; 8 lines at most
  keep A, B when E           fold          at the end: the state that is kept; none, where the test fails; without this line a and b

A closure sends eight records at most: of those of 'each' the first 8 less the number of lines 'send'.

  key, val, port             all           of the record, or of the item; port counts the sources of the vertex from 0
  items                      group, fold   how many items there are
  a, b                       fold          the state; 0 where the key has none
  before_a, before_b         fold          the state as it was before the epoch
  known                      fold          1 where the key had a state, else 0
  lost                       send, keep    how many records of 'each' were not sent

Expressions, the loosest first; a value other than 0 holds, and a test is 1 or 0:

  if E then E else E
  E or E
  E and E
  not E
  =  !=  <  <=  >  >=
  +  -
  *  /  %                    -7 / 2 is -4, and -7 % 2 is 1; by 0 the quotient is 0, and the rest is the first number
  - E
  abs E, min(E, E), max(E, E), (E), a name, a number from 0 to 2^64 - 1

Each step is an integer of 128 bits and stops at its ends. A key that is sent is brought into 0 to 2^64 - 1, a value and a state into
-2^63 to 2^63 - 1.

A fault is one line, 'td: closures line 3: name: FILE: send kye, val':

  syntax     the line has none of these forms, or its kind has no such line
  name       a name is unknown, or is not there on this line; a tab is no blank, and no name
  code       a code is not 10000 to 65535, or stands twice in its kind
  too many   256 closures, 8 registers, 8 lines 'send', 4096 numbers, names and operators, 4096 bytes a line, 1048577 in all
  deep       an expression is nested more than 64 deep
"#;
