//! What the program says of itself.

use atree_script::Manual;

/// What the program says of itself.
pub(crate) const MANUAL: Manual = Manual {
    name: "speak",
    arguments: " [--strict] [--numbered]",
    option: Some("--numbered"),
    help: "\
Prints what a small screen reader would say at each step of a script: of the focus, of what changes in the focused
node, and of live regions. The script is read from standard input. Refused updates are reported on standard error.

  --strict    end at the first refused update, with status 1
  --numbered  put a line before what is said of each update: its number

For example:
  bin/speak < examples/settings.script
  bin/speak --numbered < examples/mail.script

Exit status: 0 at the end of the script; 2 for a bad line, or for an argument; 3 if a stream failed; 4 if memory ran
out, also in an update.
",
};
