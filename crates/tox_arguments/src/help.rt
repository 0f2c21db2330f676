//! What help shows below the options.

/// Below the commands.
pub const PROGRAM: &str = "\
Example:
  printf '0 data 6162\\n50 eof\\n' | toxi dry latency:latency=100

`toxi serve --help` shows a proxy under faults, `toxi help toxics` each toxic,
`toxi help scripts` and `toxi pick --help` the files, `toxi help faults` what
each fault means. A fault is one line on standard error, and the status is then
1.";

/// Below the options of `toxi dry`.
pub const DRY: &str = "\
`toxi help toxics` shows what a TOXIC is.

The input has a line for each arrival, whose instant is in microseconds from the
link's start, 0 to 10^15:

  <micros> data <hex>   these bytes arrive
  <micros> eof          the source ends

The output has a line for each run of bytes that leave together, and one for the
link's ending:

  <micros> <start>..<stop> <hex>
  open, closed <micros> or reset <micros>

Example:
  printf '0 data 6162\\n50 eof\\n' | toxi dry latency:latency=100
prints
  100000 0..2 6162
  closed 100000";

/// Below the options of `toxi draw`.
pub const DRAW: &str = "\
A TOXIC and the input are those of `toxi dry`; see `toxi dry --help`.

The output is one SVG. Time goes across, bytes go up. A thin line tells how many
bytes had arrived, a thick one how many had left, and the area between them is
what was held. A vertical line with a mark and a word is the ending.

With --log nothing is read from standard input. The log is judged as `toxi
replay` does, and drawn unless it is unfaithful.

Example:
  printf '0 data 6162\\n50 eof\\n' | toxi draw latency:latency=100 > link.svg";

/// Below the options of `toxi plan`.
pub const PLAN: &str = "\
The output has a line for each operation that the toxics come to, in order, or
`pass` where there is none:

  delay MS                                delays all data
  delay MS jitter MS MS lane PLACE        delays all data, and each piece by the
                                          second plus or minus the third
  pace KB                                 passes KB kilobytes (of 1000 bytes) a
                                          second
  slicing BYTES BYTES MICROS lane PLACE   cuts data into pieces of the first
                                          plus or minus the second
  limit BYTES                             closes after so many bytes
  cutoff MICROS                           resets the connection at that instant
  slow MS                                 delays the closing
  mute open, mute closed MICROS or mute reset MICROS
                                          drops all data, and ends so
  halt at MICROS after BYTES, and then open, closed MICROS or reset MICROS
                                          ends so at that instant or behind so
                                          many bytes; one of the two may be
                                          absent

The lines of delay, pace and slicing end in ` until MS` where the operation
stops then, and in ` from MS` where it begins then. A lane is the place, from 0,
of the toxic whose words are drawn. `toxi help toxics` shows each toxic.

Example:
  toxi plan latency:latency=10 slow_close latency:latency=1
prints
  delay 11";

/// Below the options of `toxi stages`.
pub const STAGES: &str = "\
A TOXIC, the input and the output are those of `toxi dry`; see `toxi dry
--help`.

A thread works for each applied toxic, over rings of N items. The output doesn't
depend on N.

Example:
  printf '0 data 6162\\n50 eof\\n' | toxi stages --cap 1 latency:latency=100
prints
  100000 0..2 6162
  closed 100000";

/// Below the options of `toxi pick`.
pub const PICK: &str = "\
A FILE has at most 16777216 bytes. docs/SCRIPTS.md describes both formats in
full.

The populate file is a JSON array of proxies:

  [{\"name\": \"a\", \"upstream\": \"localhost:1\"}]

The script has rules. A connection of a proxy meets the toxics of the first rule
that covers it:

  [[rule]]
  proxy = \"a\"
  first = 2
  last = 3

  [[rule.toxic]]
  type = \"latency\"
  attributes = { latency = 100 }

The output has a line for the proxy, and one for each toxic of the chain: its
place from 0, whether the connection meets it under the words of the seed, its
short form and its name:

  proxy <name> listen <address> upstream <address> enabled|disabled
  <place> applied|skipped <short form> <name>

Example, with the files above as proxies.json and script.toml:
  toxi pick --config proxies.json --script script.toml --proxy a --conn 3 --stream downstream --seed 1
prints
  proxy a listen localhost:0 upstream localhost:1 enabled
  0 applied latency:latency=100,jitter=0,toxicity=1000 latency_downstream";

/// Below the options of `toxi check`.
pub const CHECK: &str = "\
The files are those of `toxi pick`; see `toxi pick --help`.

The output has a line for each rule and each toxic that has no effect, or not
the whole one, in the script's order:

  rule 3 never applies: no proxy shpo (shop?)
  rule 4 never applies: rules 1 to 3 cover its connections
  rule 5 applies to 21 to 40 only: connections 10 to 20 meet rule 2
  rule 2 toxic 1 never applies: toxicity 0
  rule 2 toxic 3 changes nothing: a timeout drops all data
  rule 6 is for proxy mail, which is disabled

Rules and toxics count from 1. docs/SCRIPTS.md tells what each line means and
what to do.

Example, with the files of `toxi pick --help` as proxies.json and script.toml:
  toxi check --config proxies.json --script script.toml --verbose
prints
  1 proxies, 1 rules, 1 toxics";

/// Below the options of `toxi forecast`.
pub const FORECAST: &str = "\
The files are those of `toxi pick`; see `toxi pick --help`.

The output has a line for each stream of each connection, in order: the rule
that the connection meets, or 0 for none, and the places of the toxics that are
applied under the words of the seed. Behind them a line for each toxic of each
rule that was met tells on how many connections it is applied:

  <connection> upstream|downstream rule <rule> applied <place> ..
  rule <rule> toxic <number> applied <count> of <connections> <name>

Rules and toxics count from 1, places from 0. --stream and --where leave lines
out, and no total. With --json each line is one JSON object.

Example, with the files of `toxi pick --help` as proxies.json and script.toml:
  toxi forecast --config proxies.json --script script.toml --proxy a --links 3 --seed 1 --stream downstream
prints
  1 downstream rule 0 applied
  2 downstream rule 1 applied 0
  3 downstream rule 1 applied 0
  rule 1 toxic 1 applied 2 of 2 latency_downstream";

/// Below the options of `toxi migrate`.
pub const MIGRATE: &str = "\
The script is one of version 1; see `toxi pick --help`. What is printed has
version 2 and 16 lanes, and gives each connection the same toxics with the same
names. Comments are lost.

Example, with the script of `toxi pick --help` as script.toml:
  toxi migrate --script script.toml
prints
  lanes = 16
  version = 2

  [[rule]]
  first = 2
  last = 3
  proxy = \"a\"

  [[rule.toxic]]
  type = \"latency\"

  [rule.toxic.attributes]
  latency = 100";

/// Below the options of `toxi serve`.
pub const SERVE: &str = "\
The files are those of `toxi pick`, and a TOXIC is as `toxi help toxics` shows.
--listen and --upstream stand in place of the files for one proxy, `default`,
whose toxics are named down_1, up_1 and so on. The output has a line for each
proxy that listens, with --verbose one for each stream of a link whose upstream
is reached, one for each link that ended, and one for each proxy at its end:

  listening <name> <address>
  open <name> <number> <stream> <client> <toxic> ..
  link <name> <number> up <bytes> <end> down <bytes> <end>
  total <name> <links> up <bytes> down <bytes>

The bytes are those written upstream and downstream. An end is open, closed,
reset or broken: a write failed, the upstream wasn't reached, or memory or a
thread was refused.

Each connection takes a number, and with it a fault. So probes connect to the
address of --ready, whose connections are closed at once.

Examples:
  toxi serve --listen localhost:18080 --upstream localhost:8080 --seed 1 --down latency:latency=100
  toxi serve --config proxies.json --script script.toml --seed 1 --workers 2 --log logs
  toxi serve --listen localhost:0 --upstream localhost:1 --seed 1 --links 1
The last prints, after one connection to the port that it prints first, while
port 1 is closed,
  link default 1 up 0 broken down 0 broken
  total default 1 up 0 down 0
and on standard error
  toxi: broken default 1: upstream localhost:1: connection refused";

/// Below the options of `toxi wait`.
pub const WAIT: &str = "\
It prints nothing, and ends with status 0 once a connection was accepted. While
none is, or the host's name isn't found, it tries again every 50 milliseconds.
After the time of --within it ends with P8 and status 1. An address without a
host is one of this machine.

At a proxy a wait takes a connection's number, as any client does. At the
address of `serve --ready` it takes none.

Examples:
  toxi serve --listen :18080 --upstream localhost:8080 --seed 1 --ready :18081 &
  toxi wait localhost:18081 --within 5000";

/// Below the options of `toxi arguments`.
pub const ARGUMENTS: &str = "\
The completions of shells and the man page are made of it. Its form may change
with each version.";

/// Below the options of `toxi help`.
pub const HELP: &str = "\
Examples:
  toxi help serve
  toxi help toxics
  toxi help C5";

/// What a script is. An explanation quotes the line of a key, so each stands in one.
pub const SCRIPTS: &str = "\
A script is a document of TOML. Each connection of a proxy meets the toxics of the first rule that covers it:

  version = 2
  lanes = 32

  [[rule]]
  proxy = \"a\"
  first = 2
  last = 3

  [[rule.toxic]]
  name = \"slow\"
  type = \"latency\"
  stream = \"downstream\"
  toxicity = 500
  attributes = { latency = 100 }

  version      1 or 2; absent, it is 1
  lanes        16 or 32, in version 2 alone; absent, they are 32; in version 1 each chain has 16
  rule         the rules: an array of tables, each below [[rule]]
  proxy        the proxy's name, 1 to 255 bytes
  first, last  the connections of the rule, 1 to 1000000; without last it has no upper end
  toxic        the toxics of the rule: an array of tables, each below [[rule.toxic]]
  name         1 to 64 bytes, none of them a control character; absent, it is <type>_<stream>
  type         one of those that `toxi help toxics` shows
  stream       upstream or downstream; absent, it is downstream
  toxicity     the chance in thousandths, 0 to 1000, or in version 2 a text such as \"0.25\"; absent, it is 1000
  attributes   those of the type, as `toxi help toxics` shows them; an absent one is 0

A connection that no rule covers meets no toxic. The toxics of a stream are met in the file's order.";

/// Below the options of `toxi replay`.
pub const REPLAY: &str = "\
A FILE is the log of one stream of one link. Each log has a line, in the order
given:

  faithful <proxy> <link> <stream> in N out N <ending>
      writes N late median MICROS p99 MICROS max MICROS
  unfinished <proxy> <link> <stream> in N out N
      writes N late median MICROS p99 MICROS max MICROS
  unfaithful <proxy> <link> <stream> line N

A log is faithful if its toxics and random words mean just what it says of the
bytes and the ending, and nothing came before its time. It is unfinished if it
is so as far as it goes, but broke off or has no last line. The lateness is how
long after its instant a write began, or the end came; ~ marks what may be up to
1 % too high. `late ..` is left out where nothing was timed.

Status 1 if a log can't be judged or is unfaithful. docs/REPLAY.md describes the
log.

Example:
  find logs -name '*.log' | toxi replay -";

/// Below the options of `toxi report`.
pub const REPORT: &str = "\
A FILE is the log of one stream of one link; `toxi replay --help` tells how it
is judged. The output is one HTML page that needs nothing beside it: totals, a
row for each link with who ended it, and the conversations of the first links,
both streams on one axis of time. Two logs make a link if they stand beside each
other. Logs that can't be judged come first, and then links with a log that
isn't faithful.

Status 1 if a log can't be judged or is unfaithful, as `toxi replay` has it.
docs/REPORT.md describes the page.

Example:
  find logs -name '*.log' | sort -V | toxi report - > run.html";
