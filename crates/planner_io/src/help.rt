// What the program says of itself. Each part is one byte string, as it is shown: calls are what a proof costs. The script `plan` says the same
// where no program is built yet, and has it from here: a string ends with a line that begins with the quotation mark, and the help is all of
// them in the order of this file, but for the version.
use planner_output::{complain, put};
use std::io;

// The version of the project.
const VERSION: [u8; 15] = *b"planner 1.10.0
";

// How the program is called, but for its commands.
const USAGE: [u8; 381] = *b"planner: plans a fieldbus sheet and writes a report

planner < SHEET          the report of the sheet on standard input
planner SHEET            of the sheet in a file
planner SHEET CAPTURE    of a capture beside the bounds of a P-NET sheet
planner COMMAND ..       with a command, a word of the list below

- stands for standard input, as in planner SHEET - < CAPTURE. Commands:

";

// The commands, a line for each: its word, what follows, what it does. Which command a word is goes by its line's number
// (`command_of` in words.rt).
pub(crate) const COMMANDS: [u8; 666] =
    *b"--path DEADLINE bp SHEET MASTER TIME bp SHEET MASTER ..  the report of a path
--urgent [SHEET] [CAPTURE]                               urgent requests first
--export [SHEET]                                         the sheet as text
--import [TEXT]                                          the sheet of a text
--rewrite [SHEET]                                        rings as kinds 9 and 10
--help                                                   this text
-h                                                       the same
--version                                                the version
--                                                       ends the options
";

pub fn version(rt: &HostRuntime) -> io::Result<()> {
    put(rt, &VERSION)
}

// How the program is called, for whoever named no sheet.
pub fn usage(rt: &HostRuntime) {
    complain(rt, &USAGE);
    complain(rt, &COMMANDS);
}

fn statuses(rt: &HostRuntime) -> io::Result<()> {
    put(
        rt,
        b"
Exit status:

   0  accepted; of a capture, that nothing is wrong
   1  refused; of a capture, an answer above its bound, a request left open
      beyond it or come too soon, no answer at all, or records not in order
   2  bad words, input that cannot be read, or no program
   3  the report could not be written whole
",
    )
}

fn kinds(rt: &HostRuntime) -> io::Result<()> {
    put(
        rt,
        b"
A sheet is a row of records: one byte of kind, then a body. Numbers are
big-endian.

kind  body  fields, each with its bytes and its range
   1     1  P-NET segment: masters N (1) 1..32
   2    11  P-NET stream: master (1) 1..N, longest cycle C (2) 1..1548 bp,
            spacing T (4) 1..1000000000 bp, deadline D (4) 1..T bp
   3     9  PROFIBUS ring: masters n (1) 1..32, ring latency L (4) 1..100000 bp,
            longest message M (4) 1..100000 bp
   4     9  PROFIBUS high-priority stream: master (1) 1..n, cycle C (4) 1..M bp,
            deadline D (4) 1..1000000000 bp
   5     4  WorldFIP: one buffer exchange E (4) 1..1000000 us
   6     6  WorldFIP variable: identifier (2) any, period (4) 1..1000000000 us
   7    15  P-NET stream with release jitter: master (1) 1..N, longest cycle
            C (2) 1..1548 bp, spacing T (4) 1..1000000000 bp, deadline
            D (4) 1..T-J bp, jitter J (4) 0..T-1 bp
   8     1  P-NET rule: edition (1) 1..2
   9     5  PROFIBUS ring: masters n (1) 1..32, ring latency L (4) 1..100000 bp
  10     5  PROFIBUS longest message: master (1) 1..n, its longest message
            M (4) 1..100000 bp
",
    )
}

fn rules(rt: &HostRuntime) -> io::Result<()> {
    put(
        rt,
        b"
The first record is 1, 3, 5 or 9; all later ones are 2 or 7, 4 or 6 to match,
but one of kind 8 may stand just behind kind 1, and one of kind 10 for each
master, in any order, stands behind kind 9. Kind 3 is read and no longer
written: its M is that of every master. P-NET and PROFIBUS: at most 800 streams,
at most 80 for one master. WorldFIP: at most 64 variables, no identifier twice.
us are microseconds and ns nanoseconds. bp are bit periods: of P-NET, 48 in 625
us or 6 in 78125 ns; of that ring for PROFIBUS.

Edition 1 of the P-NET rule, which holds without kind 8, charges each master the
longest that it holds the token itself, and 10 bp if it has no streams; edition
2 charges every master the longest that any of them does.

A P-NET stream keeps its spacing if each request comes 0 to J after a nominal
time of its own, and these are at least T apart; without jitter, if its requests
are at least T apart.
",
    )
}

fn texts(rt: &HostRuntime) -> io::Result<()> {
    put(
        rt,
        b"
A sheet may be given as a text too, wherever SHEET stands. A text begins with
one of these words and a comma, and has one record a line:

   pnet-segment,MASTERS
   pnet-stream,MASTER,CYCLE bp,SPACING bp,DEADLINE bp
   profibus-stream,MASTER,CYCLE bp,DEADLINE bp
   worldfip-exchange,EXCHANGE us
   worldfip-variable,IDENTIFIER,PERIOD us
   pnet-jitter-stream,MASTER,CYCLE bp,SPACING bp,DEADLINE bp,JITTER bp
   pnet-edition,EDITION
   profibus-ring,MASTERS,LATENCY bp
   profibus-message,MASTER,MESSAGE bp

Numbers are decimal digits with no zero in front; behind each time stands one
blank and its unit; each line ends with LF, the last one too. --export writes
just that, and --import takes nothing else. A ring of kind 3 has no text:
--rewrite makes it one of kind 9, with its M in a kind 10 for each master, which
means the same, and writes any other sheet as it is. A sheet of three records:

   pnet-segment,2
   pnet-stream,1,203 bp,1000 bp,1000 bp
   pnet-stream,2,203 bp,2000 bp,2000 bp

What spreadsheets change when they save a text (CR, quotation marks, a byte
order mark, semicolons, commas behind the last cell, empty rows) this mends:

   tr -d '\\r\"' <FILE | sed '1s/^\\xef\\xbb\\xbf//; s/;/,/g; s/,*$//; /^$/d'

Copy cells there, do not drag them: dragging counts up, 203 bp becomes 204 bp.
",
    )
}

fn figures(rt: &HostRuntime) -> io::Result<()> {
    put(
        rt,
        b"
A P-NET report has a line for each master with streams. bound: each of its
requests is answered within it, if that master keeps its spacing, however often
the others ask. refined: the same, if every master keeps its spacing. Both are
in bp and in ns, rounded up. rounds: of the search for refined.
",
    )
}

fn urgents(rt: &HostRuntime) -> io::Result<()> {
    put(
        rt,
        b"
--urgent plans a P-NET sheet whose masters send urgent requests first: of what
waits at a master, the request of the smallest deadline, and of equal ones that
of the stream which stands first on the sheet. Its report has a line for each
stream. place: in its master's order. figure: each of its requests is answered
within it, if it and the streams before it in that order keep their spacing,
however often all others ask. rounds: of the search for figure. Where queues
that serve first what came first refuse the sheet with 8, a last line says at
which stream, with its bound there and its figure here. Beside a capture the
figures stand as the bounds. Of the sheet of three records above it says:

   P-NET urgent first
   stream 1 M01 place 1 figure 500 bp 6510417 ns 0 rounds deadline 1000 bp
   stream 2 M02 place 1 figure 500 bp 6510417 ns 0 rounds deadline 2000 bp

The figure holds for a driver that hands its next request to the communication
stack only when the answer to the last one is complete. With a stack that is
refilled while a message is under way the figure does not hold.
",
    )
}

fn captures(rt: &HostRuntime) -> io::Result<()> {
    put(
        rt,
        b"
A capture is a row of records of its own: one byte of kind, 16 for a request
that enters its queue or 17 for its completed answer, then the stream's number
(2) and the stamp (4), a counter of bp that runs over to zero. A response is
true below 4294967296 bp. Its report has a line for each stream: bound and
largest response, both in bp and in ns, rounded up; answers, answers above the
bound, and 1 or 0 requests left open. Its last lines say what is wrong: answers
above the bound; requests open beyond the bound at the last record; requests
that came sooner than their spacing allows, on which the bound rests; no
answer at all. Ages and gaps are true while records follow each other within
2147483648 bp; where they do not, the last lines say that instead.
",
    )
}

fn paths(rt: &HostRuntime) -> io::Result<()> {
    put(
        rt,
        b"
A path has 1 to 10 gateways and a sheet for each segment. MASTER sends there,
after the first segment the gateway: the relayed stream stands in every sheet,
under the master that carries it. It is a number, or as reports show it: 1 or
M01. TIME: the gateway's forwarding time, 0..1000000 bp. DEADLINE: of the whole
path, 1..1000000000 bp. Its report has a line for each hop. total: each
segment's bound for its MASTER, and each TIME twice, for the request and for its
reply, in bp and in ns, rounded up once. The reply is there within it, if each
MASTER keeps its spacing and each gateway its time, and if no reply waits for a
token on its way back.
",
    )
}

fn refusals(rt: &HostRuntime) -> io::Result<()> {
    put(
        rt,
        b"
A sheet that cannot be planned is refused with a number and a place:

   1  it is empty, or ends inside a record    2  a kind that is not 1..10
   3  a kind in the wrong position            4  a field out of range
   5  one stream more than a limit allows     6  a first record and no stream
   7  an identifier met before                8  a P-NET bound above a deadline
   9  a PROFIBUS stream fails at L           10  no exchange fits a microcycle
  11  more than 4096 rows                    12  a variable misses its period
  14  a stream that is not on the sheet      15  an answer with no request open
  16  a request while one is open            17  a path of not 1 to 10 gateways
  18  a MASTER absent or without streams     19  a path's total above DEADLINE
  20  a master's kind 10 twice or missing    21  a P-NET figure above a deadline
  23  a line not of a text's form

In a capture 1 is a record that is cut, 2 a kind that is neither 16 nor 17, and
the place is a byte of the capture. In a path 4 is a TIME or the DEADLINE out of
range; where a sheet is refused for itself, the line says of which segment. Of a
text the place of 23 is a line, from 1, and every other place is of its sheet.
What is wrong with a text is said on standard error too.
",
    )
}

// Two parts that were written one behind the other, and the last error of both; each is tried, whatever became of the one before.
fn both(first: io::Result<()>, second: io::Result<()>) -> io::Result<()> {
    second.and(first)
}

// What a sheet is.
fn sheets(rt: &HostRuntime) -> io::Result<()> {
    both(both(kinds(rt), rules(rt)), texts(rt))
}

// What the reports show.
fn reports(rt: &HostRuntime) -> io::Result<()> {
    both(
        both(both(figures(rt), urgents(rt)), captures(rt)),
        paths(rt),
    )
}

// All of it; whether it was written whole, or why not.
pub fn help(rt: &HostRuntime) -> io::Result<()> {
    let front = both(both(put(rt, &USAGE), put(rt, &COMMANDS)), statuses(rt));
    both(both(both(front, sheets(rt)), reports(rt)), refusals(rt))
}
