//! What the program says of itself.

use atree_script::Manual;

/// What the program says of itself.
pub(crate) const MANUAL: Manual = Manual {
    name: "find",
    arguments: " [--strict] ROLE [LABEL] [OPTION]..",
    option: None,
    help: "\
Prints the visible nodes with a role, and with a label or other texts if these are given, of the tree that a script
leaves: the value of each, its path, its bounds, and what is on top at its centre. Where there is none it prints which
come near. The script is read from standard input.

  ROLE     the name of a role, as Button or Heading, or Other(N); or its name in ARIA, as textbox; or any
  LABEL    the whole label, in its case; any spaces and line ends between two words are one space

  --text TEXT      a value, as that of a text field or a label
  --any TEXT       a label, value, placeholder or description
  --level N        a level, as that of a heading
  --label TEXT     a label, also one that begins with two dashes
  --contains       a part of a text is enough
  --ignore-case    in any case
  --exact          each space counts
  --any-number     one node or more, in place of exactly one
  --strict         before ROLE: end at the first refused update, with status 1
  --at N           in the tree after the Nth update
  --every          in the tree after each update: it prints after which of them what is found changes

For example:
  bin/find Button Apply < examples/settings.script
  bin/find searchbox --any mail --contains --ignore-case < examples/mail.script

Exit status: 0 if exactly one node was found, and 1 if none or several were; 2 for a bad line of the script, or wrong
arguments; 3 if a stream failed; 4 if memory ran out.
",
};
