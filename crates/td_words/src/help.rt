//! What help says at the end of `td help` and of each subcommand: what is read and written, common faults, and the exit status.

/// Whose text it is. A row of the table names it so, since a proof about a table of long texts takes minutes.
#[derive(Clone, Copy)]
pub(crate) enum Details {
    Batch,
    Sim,
    Format,
    Feed,
    Show,
    Dump,
    Upgrade,
    Copy,
    States,
    Load,
    Stream,
    Plan,
}

/// The text. That of `run` is that of `batch`.
pub(crate) fn text_of(details: Details) -> &'static str {
    match details {
        Details::Batch => BATCH,
        Details::Sim => SIM,
        Details::Format => FORMAT,
        Details::Feed => FEED,
        Details::Show => SHOW,
        Details::Dump => DUMP,
        Details::Upgrade => UPGRADE,
        Details::Copy => COPY,
        Details::States => STATES,
        Details::Load => LOAD,
        Details::Stream => STREAM,
        Details::Plan => PLAN,
    }
}

pub(crate) const TD: &str = "\
Output goes to standard output, faults to standard error
Exit status: 0; 2 for words that do not parse; after a fault 1, or of dump, copy, states, load, stream and plan what their help
tells
'td help COMMAND' tells what a command reads and writes, 'td help faults' what each fault means, 'td help closures' how closures are
written as text, 'td --version' the version
'td --wait SECONDS COMMAND ..' waits for a disk that another td has open, 1 to 86400 seconds";

const BATCH: &str = "\
Reads:  the lines of a plan, a line '--', and lines 'INPUT KEY VALUE', where a line '.' closes an epoch
Writes: lines 'EPOCH VERTEX KEY VALUE', after all was read; nothing where there is a fault
Common faults:
        'plan line 3: syntax': no line of a plan, as a map without its code, or a record where the line '--' is missing
        'line 9: no such input': the first number of a record is not the number of an input
        'line 9: epoch not closed': no line '.' stands after the last record
Exit status: 0, or 1 after a fault, which is told on standard error
Each fault is explained by 'td help faults'";

const SIM: &str = "\
Reads:  the lines of a plan, a line '--', and lines 'INPUT KEY VALUE', where a line '.' closes an epoch
Writes: lines 'note SHARD VERTEX TIME', and then lines 'EPOCH VERTEX KEY VALUE', after all was read; nothing where there is a fault
Common faults:
        'picks': a number of LIST is empty, or has a leading zero
        'plan line 3: syntax', 'line 9: no such input', 'line 9: epoch not closed': as of td batch
Exit status: 0, or 1 after a fault, which is told on standard error
Each fault is explained by 'td help faults'";

const FORMAT: &str = "\
Reads:  PLAN, and FILE with --closures FILE
Writes: DISK, of 8308 + 64 K + N (25 + 24 M) bytes, and DISK.closures, with the text of FILE; without --closures FILE such a file
        goes away. td feed and td stream compute by the closures of DISK.closures beside those of the catalogue
Common faults:
        'shape': M, N or K is 0, or too large
        'file': PLAN cannot be read, or DISK cannot be made or is in use
        'plan line 3: syntax': as of td batch; PLAN has no line '--' and no records
Exit status: 0, or 1 after a fault, which is told on standard error
Each fault is explained by 'td help faults'";

const FEED: &str = "\
Reads:  PLAN, DISK, and lines 'INPUT KEY VALUE', where a line '.' closes an epoch, and a line 'cut' between epochs cuts;
        a line 'req REQUEST' before the records of an epoch gives it a request number
Writes: DISK, and lines 'ack EPOCH' once an epoch is on it, 'EPOCH VERTEX KEY VALUE' at a cut and at the end, and 'cut EPOCH';
        'again REQUEST' for an epoch whose number is not above the last on DISK, which is not put there again
A cut keeps the states on DISK, and frees the room of the epochs up to it
Common faults:
        'line 9: syntax': no record, or a 'cut' inside an epoch; nothing of the input was fed
        'journal full': N epochs stand after the last cut; feed a line 'cut', and then the epochs that have no 'ack'
        'too many records': an epoch has more than M
        'another plan': DISK was formatted for another plan than PLAN
Exit status: 0, or 1 after a fault, which is told on standard error
Each fault is explained by 'td help faults'";

const SHOW: &str = "\
Reads:  PLAN and DISK
Writes: a line 'kept EPOCH', of the last cut, and 'told EPOCH', of the last epoch; 'last REQUEST' where there is one;
        lines 'state VERTEX KEY A B', the states kept, and 'epoch EPOCH RECORDS', the epochs after the cut
Common faults:
        'file': PLAN or DISK cannot be read, or another td has DISK open
        'another plan': DISK was formatted for another plan than PLAN
        'busy: DISK changes while it is read': with --live, a td writes DISK so often that no reading is of one moment; try again
Exit status: 0, or 1 after a fault, which is told on standard error; with --live as of td dump
Each fault is explained by 'td help faults'";

const DUMP: &str = "\
Reads:  PLAN and DISK
Writes: a line '# kept EPOCH told EPOCH last REQUEST, epochs COUNT of N, states COUNT of K', which feed passes over;
        of each epoch after the last cut 'req REQUEST' where it has a request number, lines 'INPUT KEY VALUE', and a line '.'
Common faults:
        'file: PATH: CAUSE': a file that cannot be read, and why, as 'locked by another process'
        'another plan: DISK': DISK was formatted for another plan than PLAN
        'busy: DISK changes while it is read': with --live, a td writes DISK so often that no reading is of one moment; try again
Exit status: 0; 3 the device failed; 4 an operator is wanted; 5 a line of the input; 6 standard input or output;
        7 a file; 1 any other fault
Each fault is explained by 'td help faults'";

const UPGRADE: &str = "\
Reads:  PLAN and DISK
Writes: DISK, and a line 'version 2', also where it was of version 2 before
Common faults:
        'file': PLAN or DISK cannot be read, or another td has DISK open
        'another plan': DISK was formatted for another plan than PLAN
Exit status: 0, or 1 after a fault, which is told on standard error
Each fault is explained by 'td help faults'";

const COPY: &str = "\
Reads:  PLAN and DISK
Writes: NEW, of 8308 + 64 K + N (25 + 24 M) bytes, with the states that the last cut kept, the epochs after it, and their request
        numbers; with --until E, the epochs up to E alone; and NEW.closures, where DISK.closures is there; DISK stays as it is
Common faults:
        'file: NEW: is there': NEW is a file that is there, which td copy never writes over
        'shape: K is 0, not 1 to 1048576': M, N or K is 0, or too large
        'too many keys', 'journal full', 'too many records': NEW has too little room for what DISK has
        'no such epoch: 9, kept 3, told 7': E is below the last cut of DISK, or above its last epoch
Exit status: 0; 3 the device failed; 4 an operator is wanted; 5 a line of the input; 6 standard input or output;
        7 a file; 1 any other fault
Each fault is explained by 'td help faults'";

const STATES: &str = "\
Reads:  PLAN and DISK
Writes: a line 'kept EPOCH', of the last cut; 'last REQUEST' where there is a request number; and lines 'state VERTEX KEY A B', the
        states kept; and to standard error how many epochs stand after the cut, which td dump has
Common faults:
        'file: PATH: CAUSE': a file that cannot be read, and why, as 'locked by another process'
        'another plan: DISK': DISK was formatted for another plan than PLAN
Exit status: 0; 3 the device failed; 4 an operator is wanted; 5 a line of the input; 6 standard input or output;
        7 a file; 1 any other fault
Each fault is explained by 'td help faults'";

const LOAD: &str = "\
Reads:  PLAN, and lines as td states writes them: 'kept EPOCH', 'last REQUEST', or none, and then 'state VERTEX KEY A B', by rising
        VERTEX and KEY; lines that begin with '#' are passed over
Writes: NEW, of 8308 + 64 K + N (25 + 24 M) bytes, with these states after that epoch, and no epochs after it; and NEW.closures,
        with --closures FILE; each VERTEX is a fold of PLAN, once it is renamed by --map
Common faults:
        'file: NEW: is there': NEW is a file that is there, which td load never writes over
        'line 9: no such fold': VERTEX is no fold of PLAN
        'line 9: order': the state does not come after that of the line before, or stands there again
        'too many keys: 70, K is 64': there are more than K states
        'map': LIST is none of pairs V=W joined by commas
Exit status: 0; 3 the device failed; 4 an operator is wanted; 5 a line of the input; 6 standard input or output;
        7 a file; 1 any other fault
Each fault is explained by 'td help faults'";

const STREAM: &str = "\
Reads:  PLAN, DISK and lines, as td feed does
Writes: DISK, and, of all epochs that are closed and before it waits for more lines, 'ack EPOCH' (or 'again REQUEST') and
        then output lines 'EPOCH VERTEX KEY VALUE'; 'cut EPOCH' where a line 'cut' asks for a cut, after each E epochs with
        --cut-every E, and in any case before the room for epochs on DISK is full;
        with --marks, 'done EPOCH' after the output lines of an epoch, also where it has none;
        with --refuse, 'no REQUEST LINE: WHAT' for an epoch with a fault, and '-' where it has no request number;
        with --at, 'there EPOCH' for one that is on DISK already, as its line 'at EPOCH' says, and with --refuse
        'gap EPOCH' where DISK lacks one before it;
        with --hold, no cut beyond the last EPOCH of a line 'seen EPOCH', and 'full EPOCH' where DISK is full up to EPOCH;
        with --ask, the answer to a line 'get VERTEX KEY', 'list VERTEX', 'top VERTEX COUNT', 'least VERTEX COUNT' or 'rank VERTEX P':
        lines 'state EPOCH VERTEX KEY A B', or 'none EPOCH VERTEX KEY', and 'asked EPOCH';
        with --copies FOLDER, 'copied NEW EPOCH' for a line 'copy NEW M N K' between two epochs: FOLDER/NEW is a new disk with
        what DISK has, as of td copy; or 'not copied NEW: WHAT';
        with --progress, to standard error, 'acked EPOCH done EPOCH kept EPOCH': the last epoch on DISK, computed, and cut;
        with --hold 'seen EPOCH' behind that: the last one of a line 'seen EPOCH';
        with --room behind that 'cells COUNT of N states COUNT of K': the epochs after the cut, and its states;
        with --room or --status, once, 'td: little room: cells COUNT of N', or states, where four fifths are used;
        with --status FILE, FILE: what is there is written over only where it is such a file
A cut keeps the states on DISK, and frees the room of the epochs up to it
Common faults:
        'line 9: syntax': no record, or a 'cut' inside an epoch; what stands before it was fed
        'line 9: gap': DISK lacks an epoch before the one that 'at EPOCH' names; what stands before it was fed
        'line 9: outputs not written yet', 'line 9: a later epoch was seen': EPOCH of 'seen EPOCH' is too great, or too small
        'line 9: no such fold': VERTEX of a question is no fold of PLAN
        'too many keys: K is 3': at a cut there are more than K states; copy DISK to one with a larger K
        'file: DISK: locked by another process': another td has DISK open
        'another plan: DISK': DISK was formatted for another plan than PLAN
        'too much work: epoch 5': with --most R, epochs take more than R deliveries on average, each of up to 64 records or one
        notification; see 'td copy --until'
Exit status: 0; 3 the device failed; 4 an operator is wanted; 5 a line of the input; 6 standard input or output;
        7 a file; 8 too much work; 1 any other fault
Each fault is explained by 'td help faults'";

const PLAN: &str = "\
Reads:  PLAN, up to a line '--', if it has one
Writes: the lines of the plan, and before each map, group and fold a line '# WORDS' of what its closure is, which td passes over
        where it reads a plan; with --dot, a picture for Graphviz, as in 'td plan --dot PLAN | dot -Tsvg > plan.svg', in which
        the vertices of a loop stand in a frame
Common faults:
        'plan line 3: number: PLAN: 7 map 1 0': the fault, the file, and the line itself
        'file: PLAN: no such file': a file that cannot be read, and why
        '# no closure of the catalogue' is no fault here: batch, run, sim, feed and stream refuse such a plan
Exit status: 0; 3 the device failed; 4 an operator is wanted; 5 a line of the input; 6 standard input or output;
        7 a file; 1 any other fault
Each fault is explained by 'td help faults'";
