//! What `td help faults` prints: docs/FAULTS.md, byte for byte. `tests/faults.py` compares them, and
//! `tests/faults.py --write` writes this file anew.

/// The text that explains each fault.
pub(crate) const FAULTS: &str = r#"# Faults: what `td` says, an input that brings it, and what to do

A fault is one line on standard error: `td: ` and a text. Nothing is written to standard output. But `td feed` and
`td stream` leave standing what they wrote before the fault, and an epoch of which they wrote `ack` stays on the disk.
With `--progress` or `--room` a stream's other lines stand before the fault.

The status is 1, of the program's words 2. `td stream`, `dump`, `copy`, `states`, `load` and `plan` have more. 3 is `device`, 4 wants an
operator, 5 is a line or a closure, 6 a standard stream, 7 `file`, 8 `too much work`.

SIGTERM, SIGHUP and Ctrl-C end `td` as a kill does, without a text, and what was acknowledged stands. So does SIGXFSZ,
which comes where `ulimit -f` is below the size of the disk.

Only the first fault is written. Each text stands here with common mistakes.
`docs/REFUSALS.md` has the rules whole, `docs/FORMATS.md` the plan text and the limits.

`./check` runs each command below. Under it stands what it prints.

Lines are counted from 1: comments, empty lines and the `--` line too.

## The program's words

**`words`**: the words are none that `td help` shows, or one of them is no UTF-8, as the name of a file may be.

    $ td
    td: words
    $ td bach < /dev/null
    td: words

A number of `td format` has a minus sign, is empty, or is above 4294967295. A plus sign and leading zeros may stand. A
count of shards is not 1 to 16. A file whose name begins with `-` stands without `--` before it:

    $ td format total.disk total.plan '' 2 3
    td: words
    $ td format total.disk total.plan 4 2 4294967296
    td: words
    $ td feed total.disk total.plan --workers 17
    td: words

**`picks`**: the picks of `td sim` are no list of numbers joined by commas: one has a leading zero, is empty, or is
above 18446744073709551615. It comes before standard input is read.

    $ td sim --picks 1,02 < /dev/null
    td: picks

## Lines of the plan

**`plan line L: syntax`**: the line is none of the forms of a plan's line. A name that is spelt otherwise, or with a
capital letter:

    $ printf '0 input\n1 mpa 1 0\n2 output 1\n' | td batch
    td: plan line 2: syntax
    $ printf '0 Input\n1 output 0\n' | td batch
    td: plan line 1: syntax

A number too few: a map, a group and a fold have a code before their sources (`N map CODE SOURCE ..`):

    $ printf '0 input\n1 map 0\n2 output 1\n' | td batch
    td: plan line 2: syntax

A number with a sign, with leading zeros, or of ten digits and more. A code above 65535:

    $ printf '0 input\n1 map 01 0\n2 output 1\n' | td batch
    td: plan line 2: syntax
    $ printf '0 input\n1 map 65536 0\n2 output 1\n' | td batch
    td: plan line 2: syntax

A tab in place of a space. A carriage return before the line feed, as editors on Windows write it: `sed 's/\r$//'` takes
it away. A byte order mark at the start of the file: `sed '1s/^\xef\xbb\xbf//'` does. Any other byte that is not ASCII,
in a comment too:

    $ printf '0\tinput\n1 output 0\n' | td batch
    td: plan line 1: syntax
    $ printf '0 input\r\n1 output 0\r\n' | td batch
    td: plan line 1: syntax
    $ printf '\357\273\2770 input\n1 output 0\n' | td batch
    td: plan line 1: syntax
    $ printf '0 input\n# caf\303\251\n1 output 0\n' | td batch
    td: plan line 2: syntax

The `--` line between plan and records is not there, so that a record is read as a line of the plan:

    $ printf '0 input\n1 output 0\n0 7 1\n.\n' | td batch
    td: plan line 3: syntax

An `end` without its `loop`, or of a loop without a vertex. A `loop` without its `end`, at the line after the last:

    $ printf '0 input\nend\n1 output 0\n' | td batch
    td: plan line 2: syntax
    $ printf '0 input\nloop 3\n1 enter 0\n' | td batch
    td: plan line 4: syntax

**`plan line L: number`**: vertices are numbered 0, 1, 2, .. in the order in which they stand. `loop` and `end` have no
number.

    $ printf '0 input\n2 output 0\n' | td batch
    td: plan line 2: number

**`plan line L: order`**: a vertex reads one that does not stand before it. Only a feedback may. An enter reads one that
stands before the loop.

    $ printf '0 input\n1 output 2\n2 map 1 0\n' | td batch
    td: plan line 2: order

**`plan line L: nest`**: the vertex may not stand here, or may not read that source. An input or an output stands in a
loop. An enter, a feedback or a leave stands in none. A vertex in a loop reads one outside, which goes through an enter.
One outside reads one in a loop, which goes through a leave. An output is read.

    $ printf '0 input\nloop 3\n1 map 1 0\nend\n2 output 1\n' | td batch
    td: plan line 3: nest

**`plan line L: bound`**: the bound of a loop is not 1 to 1,000.

    $ printf '0 input\nloop 0\n1 enter 0\n2 leave 1\nend\n3 output 2\n' | td batch
    td: plan line 2: bound

**`plan line L: fold in loop`**: a fold keeps its states from epoch to epoch, and stands outside all loops. What is to
be folded leaves the loop first.

    $ printf '0 input\nloop 3\n1 enter 0\n2 fold 40 1\n3 leave 2\nend\n4 output 3\n' | td batch
    td: plan line 4: fold in loop

**`plan line L: again`**: a feedback has exactly one source, a vertex that is read on the feedback's own block.

    $ printf '0 input\nloop 3\n1 enter 0\n2 feedback 0\n3 leave 1\nend\n4 output 3\n' | td batch
    td: plan line 4: again

**`plan line L: too many`**: a plan has at most 64 vertices, 128 edges, three loops one inside the other, and eight
sources of a vertex.

    $ printf '0 input\n1 output 0 0 0 0 0 0 0 0 0\n' | td batch
    td: plan line 2: too many

**`plan: no input or output`**: a plan has at least one of each. No input at all:

    $ td batch < /dev/null
    td: plan: no input or output

## Closures

**`vertex V: no closure C`**: the catalogue has no closure of that code for the kind of vertex V. Maps, groups and folds
have codes of their own: 20 is a group's, and no map's. The catalogue stands in `docs/CATALOGUE.md`. A code from 10000
on is one of closures in text: `--closures FILE` is missing, or FILE has none of that kind and code. Of a disk FILE is
DISK.closures.

    $ printf '0 input\n1 map 20 0\n2 output 1\n' | td batch
    td: vertex 1: no closure 20

**`closures line L: syntax`**: the line of closures in text is none of the forms that `td help closures` shows, or its
kind of closure has no such line. An `item` in a map. A `keep` in a group. A tab in the place of blanks. An operator
without its right side. A `send` with one number:

    $ printf 'group 10000\n  keep key, val\n' > my.closures; td batch --closures my.closures < /dev/null
    td: closures line 2: syntax: my.closures:   keep key, val
    $ printf 'map 10000\n  send val\n' > my.closures; td batch --closures my.closures < /dev/null
    td: closures line 2: syntax: my.closures:   send val

**`closures line L: name`**: a name is unknown, or is not there on this line: `a` in a map, `lost` in an `item`, a
register before its `let`. A number from 2^64 on counts as an unknown name:

    $ printf 'map 10000\n  send kye, val\n' > my.closures; td batch --closures my.closures < /dev/null
    td: closures line 2: name: my.closures:   send kye, val
    $ printf 'group 10000\n  send key, a\n' > my.closures; td batch --closures my.closures < /dev/null
    td: closures line 2: name: my.closures:   send key, a

**`closures line L: code`**: a code is not 10000 to 65535, or two closures of one kind have it:

    $ printf 'map 40\n  send key, val\n' > my.closures; td batch --closures my.closures < /dev/null
    td: closures line 1: code: my.closures: map 40

**`closures line L: too many`**: the line or the text is longer than a limit of `docs/CLOSURES.md` allows: a ninth
register, a ninth line `send`, a second `keep`:

    $ printf 'fold 10000\n  keep a, b\n  keep b, a\n' > my.closures; td batch --closures my.closures < /dev/null
    td: closures line 3: too many: my.closures:   keep b, a

**`closures line L: deep`**: an expression is nested more than 64 deep. Name parts of it by `let`, in lines before.

## Lines of records

**`line L: syntax`**: after the `--` line, a line is `INPUT KEY VALUE`, or `.`. A number too few or too many. A key that
is negative. A value above 9223372036854775807. A plus sign, leading zeros, a decimal point:

    $ printf '0 input\n1 output 0\n--\n0 7\n.\n' | td batch
    td: line 4: syntax
    $ printf '0 input\n1 output 0\n--\n0 -1 5\n.\n' | td batch
    td: line 4: syntax
    $ printf '0 input\n1 output 0\n--\n0 1 9223372036854775808\n.\n' | td batch
    td: line 4: syntax
    $ printf '0 input\n1 output 0\n--\n0 1 2.5\n.\n' | td batch
    td: line 4: syntax

A second `--` line. A carriage return, a tab or a byte that is not ASCII, as in the plan:

    $ printf '0 input\n1 output 0\n--\n--\n0 1 5\n.\n' | td batch
    td: line 4: syntax
    $ printf '0 input\n1 output 0\n--\n0 1 5\r\n.\r\n' | td batch
    td: line 4: syntax

**`line L: no such input`**: the first number of a record's line is that of an input of the plan, not of another vertex.

    $ printf '0 input\n1 output 0\n--\n1 7 1\n.\n' | td batch
    td: line 4: no such input

**`line L: epoch not closed`**: there are records after the last `.`, or there is none. L is the line after the last,
where the `.` is to stand.

    $ printf '0 input\n1 output 0\n--\n0 7 1\n' | td batch
    td: line 5: epoch not closed

`td stream`, `td dump` and `td copy` write more: after the text and `: ` come the place and the cause, where they are
known. `td plan` writes the line with the fault, too.

    $ printf '0 input\n7 map 1 0\n8 output 7\n' > my.td; td plan my.td
    td: plan line 2: number: my.td: 7 map 1 0

## Files and shapes

From here on the commands use this plan, a running total:

    $ printf '0 input\n1 fold 40 0\n2 output 1\n' > total.plan

**`file`**: PLAN cannot be opened and read, or DISK cannot be made or opened. It or its folder is not there. It is a
folder, a device or a pipe, or may not be read or written. Another `td` has it open. Its file system has no locks. PLAN
comes first.

    $ td show total.disk no.plan
    td: file
    $ td format no_folder/total.disk total.plan 4 2 3
    td: file
    $ td feed no.disk total.plan
    td: file

With place and cause. `td copy` makes its file NEW, and refuses one that is there, whatever it is:

    $ td stream no.disk total.plan
    td: file: no.disk: no such file
    $ td dump total.plan no.plan
    td: file: no.plan: no such file
    $ td stream / total.plan
    td: file: /: a folder
    $ td stream /dev/null total.plan
    td: file: /dev/null: no file
    $ td format total.disk total.plan 4 2 3; td copy total.disk total.plan total.plan 4 2 3
    td: file: total.plan: is there
    $ td copy total.disk total.plan no_folder/new.disk 4 2 3
    td: file: no_folder/new.disk: no such folder

**`busy: DISK changes while it is read`**: a `td` writes DISK, and `--live` found it never at rest. Try again.

**`shape`**: M is not 1 to 65,536, N not 1 to 65,536, or K not 1 to 1,048,576. It comes before DISK is made.

    $ td format total.disk total.plan 4 2 0
    td: shape
    $ td format total.disk total.plan 65537 2 3
    td: shape
    $ td copy total.disk total.plan new.disk 4 2 0
    td: shape: K is 0, not 1 to 1048576

## What stands on a disk

`td dump` and `td copy` refuse a disk where `td show` does, with the same texts, and the path of DISK behind them.

**`not formatted`**: DISK has no head: `td format` did not make it, or was stopped before its end. Format it. What
stands in the file is gone then.

    $ printf 'no disk' > no.disk; td show no.disk total.plan
    td: not formatted

**`another plan`**: DISK was formatted for another plan than that in PLAN. Comments, empty lines and spaces do not
matter. The closures' codes do. `td states` and `td load` take what its folds keep to a disk of another plan, as
`docs/STATES.md` shows. `td dump` writes the epochs since the last cut.

    $ printf '0 input\n1 group 20 0\n2 output 1\n' > count.plan
    $ td format total.disk total.plan 4 2 3; td show total.disk count.plan
    td: another plan
    $ td dump total.disk count.plan
    td: another plan: total.disk

**`damaged: head`**, `damaged: no slot`, `damaged: slot I`, `damaged: cell I`: DISK has bytes that `td` never leaves
there, wherever it is stopped. Something else wrote the file, cut it off, or lost what was synced. Nothing on such a
disk is believed, and no command reads it. `docs/OPERATING.md` has the steps; `docs/DISK.md` the places.

    $ td format total.disk total.plan 4 2 3; head -c 8700 total.disk > short.disk; td show short.disk total.plan
    td: damaged: head
    $ td format total.disk total.plan 4 2 3; printf '\000' | dd of=total.disk bs=1 seek=8378 conv=notrunc 2> dd.txt
    $ td show total.disk total.plan
    td: damaged: no slot
    $ td format total.disk total.plan 4 2 3; printf '\004' | dd of=total.disk bs=1 seek=8277 conv=notrunc 2> dd.txt
    $ td show total.disk total.plan
    td: damaged: slot 0
    $ td format total.disk total.plan 4 2 3; printf '.\n' | td feed total.disk total.plan
    ack 1
    $ printf '\005' | dd of=total.disk bs=1 seek=8640 conv=notrunc 2> dd.txt; td show total.disk total.plan
    td: damaged: cell 1

**`no such epoch`**: E of `td copy --until E` is below the epoch of the last cut, or above the last epoch on the disk.
The text has both. NEW is not made.

    $ td format total.disk total.plan 4 2 3; td copy total.disk total.plan part.disk 4 2 3 --until 9
    td: no such epoch: 9, kept 0, told 0

**`line L: no such fold`**, `line L: order`, `map`: of `td load`. `docs/STATES.md` says what to do.

    $ printf 'kept 1\nstate 3 7 5 1\n' | td load states.disk total.plan 4 2 3
    td: line 2: no such fold
    $ printf 'kept 1\nstate 1 8 5 1\nstate 1 7 5 1\n' | td load states.disk total.plan 4 2 3
    td: line 3: order
    $ td load states.disk total.plan 4 2 3 --map 3 < /dev/null
    td: map

## Feeding a disk

**`line L: syntax`**, `line L: no such input`, `line L: epoch not closed`: as in *Lines of records*, but L is counted
from the first line of standard input. Of `td feed` nothing of the input was put on the disk. Of `td stream` the epochs
before the line are there. A line of more than 4,096 bytes is `syntax` in `td stream`. A line `cut` may stand where no
record does since the last `.`:

    $ td format total.disk total.plan 4 2 3; printf '0 7 5\ncut\n.\n' | td feed total.disk total.plan
    td: line 2: syntax

So may a line `req Q`, which begins an epoch, and it stands once in it. Q is 1 to 18446744073709551615, without a plus
sign and leading zeros:

    $ printf '0 7 5\nreq 5\n.\n' | td feed total.disk total.plan
    td: line 2: syntax
    $ printf 'req 0\n0 7 5\n.\n' | td feed total.disk total.plan
    td: line 1: syntax

An epoch that begins so ends with a `.` too, and no `cut` stands in it:

    $ printf 'req 5\n' | td feed total.disk total.plan
    td: line 2: epoch not closed
    $ printf 'req 5\ncut\n.\n' | td feed total.disk total.plan
    td: line 2: syntax

**`line L: outputs not written yet`**, `line L: a later epoch was seen`: of `seen E`, as `docs/DELIVERY.md` has it:

    $ printf 'seen 1\n' | td stream total.disk total.plan --marks --hold
    td: line 1: outputs not written yet

**`line L: gap`**: of `td stream --at`: the disk lacks an epoch before E of the line `at E`. Send that first:

    $ printf 'at 3\n0 7 5\n.\n' | td stream total.disk total.plan --at
    td: line 1: gap

**`old version`**: an epoch has a request number, and the disk is of version 1 of its format, which has none. What
stands before it was fed. `td upgrade` raises the disk to version 2 and leaves all on it. Then feed again. Here a disk
of version 1 is made by hand:

    $ td format total.disk total.plan 4 2 3; printf '\001' | dd of=total.disk bs=1 seek=7 conv=notrunc 2> dd.txt
    $ printf 'req 5\n0 7 5\n.\n' | td feed total.disk total.plan
    td: old version
    $ td upgrade total.disk total.plan; printf 'req 5\n0 7 5\n.\n' | td feed total.disk total.plan
    version 2
    ack 1
    1 2 7 5

**`last generation`**: `td upgrade` writes a head with the generation after that of the head that counts, and there is
none after 2^64 - 1. No disk comes so far: here it is written into a head by hand. Such a disk is fed without request
numbers:

    $ td format total.disk total.plan 4 2 3
    $ printf '\001\377\377\377\377\377\377\377\377' | dd of=total.disk bs=1 seek=7 conv=notrunc 2> dd.txt
    $ td upgrade total.disk total.plan
    td: last generation
    $ printf '0 7 5\n.\n' | td feed total.disk total.plan
    ack 1
    1 2 7 5

**`journal full`**: the disk has room for the N epochs after a cut, and they stand there. Cut: feed a line `cut`, and
the epochs that have no `ack`. An epoch whose request number is on the disk needs no room. `td stream` cuts
by itself where the journal is full, with `--hold` up to the last `seen`. `td copy` makes a disk with a larger N, and
says where N is too small.

    $ td format total.disk total.plan 4 2 3; printf '.\n.\n.\n' | td feed total.disk total.plan
    ack 1
    ack 2
    td: journal full
    $ td format total.disk total.plan 4 2 3; printf '.\n.\n' | td feed total.disk total.plan
    ack 1
    ack 2
    $ printf 'cut\n.\n' | td feed total.disk total.plan
    cut 2
    ack 3

**`too many records`**: an epoch has more than M records. Close it earlier, or copy the disk to one with a larger M.
`td stream` writes it at the record that is one too many, before the `.`.

    $ td format total.disk total.plan 4 2 3
    $ printf '0 7 1\n0 7 1\n0 7 1\n0 7 1\n0 7 1\n.\n' | td feed total.disk total.plan
    td: too many records
    $ printf '0 7 1\n0 7 1\n0 7 1\n0 7 1\n0 7 1\n.\n' | td stream total.disk total.plan
    td: too many records: epoch 1, M is 4
    $ printf '0 7 1\n0 7 1\n.\n' | td feed total.disk total.plan; td copy total.disk total.plan new.disk 1 2 3
    ack 1
    1 2 7 2
    td: too many records: epoch 1 has 2, M is 1

**`too many keys`**: at a cut the folds keep more than K states. The disk stays as it was before the cut, with its
epochs. It cannot be cut unless later epochs remove states. Copy it to one with a larger K, and go on with
that. The first line of `td dump` says how many states a disk has of its K.

    $ td format total.disk total.plan 4 2 3
    $ printf '0 1 5\n0 2 5\n0 3 5\n0 4 5\n.\ncut\n' | td feed total.disk total.plan
    ack 1
    1 2 1 5
    1 2 2 5
    1 2 3 5
    1 2 4 5
    td: too many keys
    $ td copy total.disk total.plan larger.disk 4 2 4; echo cut | td feed larger.disk total.plan
    1 2 1 5
    1 2 2 5
    1 2 3 5
    1 2 4 5
    cut 1

**`no more epochs`**: the last epoch that has a number, 2^63 - 1, stands on the disk. No feed comes so far: here it
is written by hand:

    $ td format total.disk total.plan 4 2 3
    $ printf '\177\377\377\377\377\377\377\377' | dd of=total.disk bs=1 seek=8258 conv=notrunc 2> dd.txt
    $ td feed total.disk total.plan
    td: no more epochs

`no such input` without a line, `foreign hall`, `epoch E not passed`, `cut waiting` and `broken` are refusals of the
library's keeper, to which `td` gives no cause.

### too much work

**`too much work`**: the epochs that were read take more than R deliveries each on average, where R is that of
`td stream --most R`. `td help stream` says what a delivery is. The text has the first epoch that has not passed.

Loops make such epochs. `td plan` writes the product of the bounds of loops in one another. A `map 6` in a loop doubles
its records in each turn.

    $ printf '0 input\nloop 1000\n1 enter 0\n2 feedback 3\n3 map 1 1 2\n4 leave 3\nend\n5 output 4\n' > round.plan
    $ td plan round.plan | tail -n 1
    # at most 1000 turns an epoch
    $ td format round.disk round.plan 4 8 3
    $ printf 'req 1\n0 7 1\n.\n' | td stream round.disk round.plan --most 100; echo "status $?"
    ack 1
    td: too much work: epoch 1
    status 8

An epoch is acknowledged before it is computed: it stands on the disk, and nothing is lost. A later start allows R for
each epoch since the last cut: it ends alike, or gets through. Where the work is wanted, start with a greater R, or
without `--most`. Else go on without that epoch:

1. Look at it by `td dump`, and keep what was dumped. Where several epochs were read at once it may be one after that in
   the text.
2. Copy the disk up to the epoch before it, by `td copy --until`.
3. Put the copy in the disk's place.
4. Send what came after that epoch again, without it.

The first two:

    $ td dump round.disk round.plan
    # kept 0 told 1 last 1, epochs 1 of 8, states 0 of 3
    req 1
    0 7 1
    .
    $ td copy round.disk round.plan before.disk 4 8 3 --until 0; td show before.disk round.plan
    kept 0
    told 0

### device

**`device`**: a read, a write or a sync of DISK failed. Each epoch with an `ack` was on the device before. Of the next
ones all that were to be put there together may be there, or none. `td stream`, `td dump` and `td copy` name the file,
the call and the cause: `td: device: total.disk: write: no space left on device`.

Never:

- start `td` on this file before step 6, not even `td show`
- format it, or send a batch again under a new request number
- put a copy over it while its own bytes may be good: what was acknowledged after the copy was made is not in it

In this order:

1. **Stop what starts `td` by itself**: the supervisor, the timer, the loop of a script. The status of a stream is 3.
2. **Write down** the line that `td` wrote, and which batch was the first without an `ack` or `again`.
3. **Read the call and the cause** in that line:
   - `write`, and `no space left on device`, `quota exceeded` or `file too large`: make room, or raise the limit. The
   file is good. Go to step 6.
   - `read`, and `the file has become shorter`: something cut the file off. Look for what did it, and put a copy back.
   Go to step 6.
   - Anything else, any cause of a `sync`, or no call, as of `format`, `feed`, `show` and `upgrade`: go on with step 4.
4. **Mend or replace the device.** Look at what `dmesg` says of it. Where it is replaced copy the file to the new one by
   `cp`, and DISK.closures, where it is there. Then run `sync`, and go on with that copy.
5. **Start the machine again**, or take the file system off and put it on again. After a sync that failed, an operating
   system may keep in its memory what the device never got. It then answers reads, and later syncs, from there. A loss
   of power would take away what `td` would find and acknowledge. (Or copy the file past that memory, as by
   `dd iflag=direct`, and compare: where they differ the copy is what stands.)
6. **Run `td show DISK PLAN`.** What it writes is what you have. Where it writes `device` again, go back to step 4.
   Where it writes `damaged`, put a copy back.
7. **Start again, and send everything from the first batch without an answer**, under its request numbers. What is there
   already is answered `again`. Batches without numbers are sent from the epoch after `told`.
8. **Start what you stopped** in step 1.

A file on which `td format` ended so is formatted again. Where NEW of `td copy` failed, the text has its path. NEW was
removed, and DISK is as it was: make room, or take another device, and copy again.

## The machine

**`input`**: standard input cannot be read: it is closed, or a folder. Or its end has not come after 2^32 reads. Of
`td stream`, whose input may go on for ever, the end of a line has not, or an epoch has more than 2^32 lines.

    $ td batch < /
    td: input

**`memory`**: the system refused memory. Nothing was written, but by `td feed` and `td stream`: look with `td show`
where the disk stands. The program keeps the whole input, so an input that is cut in two needs half. `td stream` keeps
64 KiB of it, one line, at most 256 epochs read ahead, and the epochs since the last cut: cut more often.

An epoch may also grow to more than the memory holds, by a loop that multiplies its records. It is acknowledged before
it is computed. So each later start ends as `memory` again, or does not end. Start the stream with `--most R`, and go on
as for `too much work`.

**`spent`**: `td run`, `sim`, `feed` and `stream` number their tasks, and 2^63 were taken. No machine comes so far.

### output

**`output`**: standard output cannot be written: it is closed, or its file system is full, or who read it went away, as
`head` does. The disk is fine. It may have a few more epochs than you saw `ack` for, all that were put there together.
What stands after them in the input is not there. A disk whose `version 2` could not be written is raised.

Never format the disk for this, put a copy back, or send a batch again under a new request number.

1. **Look at who reads the output**: start it again, or make room for the file where it goes. Commands other than `feed`
   and `stream` are then run again, and that is all.
2. **Run `td show DISK PLAN`.** The epoch behind `told` is the last on the disk, and the one behind `kept` that of the
   last cut.
3. **Start again, and send everything from the first batch without an answer**, under its request numbers. What is there
   already is answered `again`. Batches without numbers are sent from the epoch after `told`.
4. **Read the outputs again.** Those of all epochs after `kept` come once more, the same ones. Those up to `kept` do
   not: a cut dropped them. Where you lack some, feed all batches from the first on to a fresh disk, if you have them.

A feed whose output is closed has put two epochs on the disk:

    $ td help >&-
    td: output
    $ td format total.disk total.plan 4 2 3; printf '0 7 5\n.\n.\ncut\n.\n' | td feed total.disk total.plan >&-
    td: output
    $ td show total.disk total.plan
    kept 0
    told 2
    epoch 1 1
    epoch 2 0
"#;
