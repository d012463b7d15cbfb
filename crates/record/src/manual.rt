//! What the program says of itself.

use script_lines::Manual;

/// What the program says of itself.
pub(crate) const MANUAL: Manual = Manual {
    name: "record",
    arguments: " [--tree]",
    option: Some("--tree"),
    help: "\
Writes each command of a script again in one form, so that scripts can be compared: fields in a fixed order, numbers
without leading zeros, no comments. The script is read from standard input.

  --tree  write only the tree that the script leaves, as a script that makes it: refused updates are reported on
          standard error

For example:
  bin/record < examples/mail.script
  bin/record --tree < examples/mail.script > mail.snapshot

Exit status: 0 at the end of the script; 1 if --tree is given and there is no tree; 2 for a bad line, or for an
argument; 3 if a stream failed; 4 if memory ran out.
",
};
