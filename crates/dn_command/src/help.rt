// The help texts. Their lines have at most 80 columns.

// The version of the program.
pub(crate) const VERSION: &str = "3.1.0";

// What the program is.
pub(crate) const PROGRAM: &str = "\
Canonicalises, checks and compares DIMACS network instances: min, max and sp
problems, and ss, p2p and co companions of sp graphs.";

// What each command does, in one line; then what it prints, with an example.
pub(crate) const SHOW: &str = "Shows what a file contains";

pub(crate) const SHOW_END: &str = "\
Lines printed for a graph, in this order:
  kind KIND                   min, max or sp
  nodes NODES                 The number of nodes
  lines N                     The number of arc lines
  supplies N                  min: the number of nodes whose flow is not 0
  source ID                   max: the source
  sink ID                     max: the sink
  pairs N                     The number of pair lines that follow
  pair SRC DST length LENGTH  sp: the least length from node SRC to node DST
  pair SRC DST total CAP      max: the total capacity from SRC to DST
  pair SRC DST forced L cost F steps N
                              min: L forced units with the total cost F, and
                              free capacity at N different costs

The pairs are those of the canonical text, by ascending SRC, then DST.

Lines printed for a companion:
  kind KIND                   ss, p2p or co
  lines N                     The number of its s, q or v lines

Example:
  $ dnorm show flow.min
  kind min
  nodes 2
  lines 3
  supplies 0
  pairs 1
  pair 1 2 forced 2 cost 3 steps 3

The lower bounds force 2 units from node 1 to node 2, which cost 3 together.
Further units have 3 different costs.";

pub(crate) const CHECK: &str = "Checks a file, optionally with a companion";

pub(crate) const CHECK_END: &str = "\
Lines printed, in this order; the last is one of the four forms lines:
  accepted KIND  FILE has no fault; KIND is min, max, sp, ss, p2p or co
  fits KIND      With --with: COMPANION has no fault, and FILE has every node
                 that COMPANION names; KIND is ss, p2p or co
  forms 1 2      FILE is canonical in both forms
  forms 1        FILE is canonical in form 1 only
  forms 2        FILE is canonical in form 2 only
  forms none     FILE is not canonical; this is not a fault

FILE is canonical in a form if canon, in that form, writes the bytes of FILE.
With --with, FILE must be an sp graph. 'dnorm help' lists the refusals.

Example:
  $ dnorm check roads.gr --with sources.ss
  accepted sp
  fits ss
  forms none

roads.gr is an sp graph without a fault. sources.ss is an ss companion, and
names only nodes of roads.gr. canon writes other bytes than those of roads.gr.";

pub(crate) const CANON: &str = "Writes the canonical form of a file";

pub(crate) const CANON_END: &str = "\
Two accepted files pose the same problem exactly if canon, in one form, writes
equal bytes for both. The forms differ only for min problems:
  1  Separate arcs for forced units and for free capacity: LOW is CAP or 0
  2  One arc for each cost of a pair; never more arcs than in form 1

Do not redirect the output to FILE: the shell empties FILE first.

Example:
  $ dnorm canon roads.gr
  p sp 3 5
  a 1 2 3
  a 2 1 4
  a 2 2 0
  a 2 3 9
  a 3 1 -5

roads.gr has three arcs from node 1 to node 2. canon keeps their least length,
and sorts the arcs by tail, then by head.";

pub(crate) const COMPARE: &str = "Prints the first difference between two files";

pub(crate) const COMPARE_END: &str = "\
Prints one line: same, or the first of the other lines that holds. The value of
LEFT precedes the value of RIGHT. A missing length or cost is none.

  same                                         Both pose the same problem
  differ kind KIND KIND                        The kind
  differ nodes NODES NODES                     The number of nodes
  differ supply ID FLOW FLOW                   min: the flow of node ID
  differ source ID ID                          max: the source
  differ sink ID ID                            max: the sink
  differ pair SRC DST length LENGTH LENGTH     sp: the least length
  differ pair SRC DST capacity CAP CAP         max: the total capacity
  differ pair SRC DST amount X cost COST COST  min: the least cost of X units
  differ length K K                            ss, p2p: the number of items
  differ item PLACE                            ss, p2p: the item at PLACE
  differ point ID                              co: the point of ID

The line names the least ID, the least pair (SRC, DST) with its least amount X,
or the least PLACE where the files differ. PLACE counts from 1. The exit status
is 0 for same, and 1 for a difference.

Example:
  $ dnorm compare flow.min flow-cheaper.min
  differ pair 1 2 amount 5 cost 4 3

5 units from node 1 to node 2 cost 4 in flow.min, and 3 in flow-cheaper.min.
Smaller amounts cost the same in both.";

// What each argument is.
pub(crate) const TEXT: &str = "The name of a file, or - for standard input";

pub(crate) const WITH: &str = "\
Checks also that this companion (ss, p2p or co)
names only nodes of the sp graph FILE";

pub(crate) const FORM: &str = "\
The canonical form, which matters only for
min problems";

// The end of short help.
pub(crate) const SHORT_END: &str = "\
See 'dnorm help' for the formats, the exit statuses and all refusals, and
'dnorm help COMMAND' for the lines that a command prints.";

// The end of long help.
pub(crate) const LONG_END: &str = "\
Each command reads a named file, or - for standard input, which can be named
once. A name that begins with - goes after --. dnorm decompresses no file.
Without arguments, dnorm runs: dnorm canon -

'dnorm help COMMAND' explains each line that a command prints, with an example.

The kinds of files, and their lines:
  min  p min NODES ARCS    n ID FLOW           a SRC DST LOW CAP COST
  max  p max NODES ARCS    n ID s and n ID t   a SRC DST CAP
  sp   p sp NODES ARCS                         a SRC DST LENGTH
  ss   p aux sp ss K                           s ID
  p2p  p aux sp p2p K                          q ID1 ID2
  co   p aux sp co K                           v ID X Y

Words in capitals are whole numbers. Nodes are numbered from 1. The p line, the
problem line, precedes the other lines; n lines precede a lines. ARCS and K are
the number of lines of the last column, the counted lines. dnorm skips blank
lines, and comments: lines whose first word begins with c.

Exit statuses:
  0  Success; compare: both files pose the same problem
  1  compare: the files differ
  2  A file is refused (1 to 21, 34), or a companion does not fit (35, 36)
  3  The command line is refused
  4  Out of memory, or a file or standard output failed (30 to 33)
With status 2 or 3, dnorm writes nothing to standard output.

Each refusal is one line on standard error, of one of these shapes:
  NAME:LINE: NUMBER REFUSAL          The first fault of file NAME is at LINE
  NAME:end: NUMBER REFUSAL           The first fault of file NAME is at its end
  NAME: NUMBER REFUSAL               Refusal 30, 31, 32, 34 or 36 of file NAME
  NAME: 35 NotInGraph ID             Companion NAME names node ID
  out: 33 Write                      Standard output failed
  dnorm: 30 Memory                   Memory ran out before a file was opened
  dnorm: bad command line            No command has these arguments
  dnorm: standard input named twice  Two files are -

NAME is - for standard input. Lines count from 1, comments and blank lines
included. For example, line 3 of roads.gr names a node above NODES:
  roads.gr:3: 13 NodeOutOfRange

Refusals of a file, at a line or at its end:
   1 BadLine          The first word is none of p, n, a, s, q and v.
   2 EarlyLine        A line other than p precedes the problem line.
   3 SecondProblem    There is a second problem line.
   4 UnknownProblem   The problem line names none of the six kinds.
   5 WrongLine        A file of this kind has no line with this letter.
   6 LateNode         A node line follows an arc line.
   7 TooManyLines     There are more counted lines than declared.
   8 FieldCount       The line has too few or too many words.
   9 NotANumber       A number field is no whole number in decimal digits.
  10 OutOfRange       A number is below -2^63 or above 2^63-1.
  11 Negative         NODES, ARCS, K, LOW or CAP is below 0.
  12 BadTerminal      The third word of a max node line is neither s nor t.
  13 NodeOutOfRange   A node is not in 1 to NODES; in a companion, below 1.
  14 RepeatedNode     A node has a second node line or a second point, or there
                      is a second source or sink.
  15 SameTerminal     Source and sink are one node.
  16 LowAboveCap      The lower bound LOW of an arc is above its capacity CAP.
  17 SumTooLarge      The capacities from SRC to DST sum to more than 2^63-1.
  18 NoProblem        There is no problem line.
  19 MissingTerminal  A max file has no source or no sink.
  20 TooFewLines      There are fewer counted lines than declared.
  21 TooLong          The line's number is 2^63-1.

Other refusals:
  30 Memory           The system or a limit refused more memory.
  31 Read             The file could not be opened, or reading it failed.
  32 Endless          The file has no end: 2^40 reads returned bytes.
  33 Write            Writing to standard output failed.
  34 CountTooLarge    The canonical text has more than 2^63-1 counted lines.
  35 NotInGraph       The companion names a node above NODES of the graph.
  36 NotKinds         FILE is not an sp graph, or COMPANION is no companion.

Usual causes that the line itself does not show:
  BadLine                    FILE is compressed, is in UTF-16, or begins with a
                             byte order mark.
  NoProblem                  FILE is empty, or its lines end in CR alone.
  TooManyLines, TooFewLines  Only a, s, q and v lines count.
  bad command line           Several files: a command takes one, compare two.
                             dnorm-files takes any number, and folders.

dnorm-explain prints the line that a refusal names, and such causes:
  dnorm check FILE 2>&1 | dnorm-explain";
