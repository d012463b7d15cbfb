//! What the program says of itself.

use atree_script::Manual;

/// What the program says of itself.
pub(crate) const MANUAL: Manual = Manual {
    name: "page",
    arguments: " [--strict]",
    option: None,
    help: "\
Writes an HTML page with each state of a script's tree: the events that led to it, the tree as an outline, and a
picture of its boxes. The script is read from standard input. Refused updates are reported on standard error.

  --strict  end at the first refused update, with status 1

For example:
  bin/page < examples/editor.script > editor.html

Exit status: 0 at the end of the script; 2 for a bad line, or for an argument; 3 if a stream failed; 4 if memory ran
out.
",
};
