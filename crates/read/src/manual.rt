//! What the program says of itself.

use atree_script::Manual;

/// What the program says of itself.
pub(crate) const MANUAL: Manual = Manual {
    name: "read",
    arguments: " [--strict] ID TREE",
    option: None,
    help: "\
Prints a text of the tree that a script leaves, as a screen reader steps through it: the selection, and each line
with its words and characters. The script is read from standard input.

  --strict  end at the first refused update, with status 1
  ID        the number of the node that has the text
  TREE      the tree of that node: root, or a UUID

For example:
  bin/read 59 root < examples/editor.script

Exit status: 0 if there is such a text, and 1 if there isn't; 2 for a bad line of the script, or wrong arguments; 3
if a stream failed; 4 if memory ran out.
",
};
