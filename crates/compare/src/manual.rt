//! What the program says of itself.

use script_lines::Manual;

/// What the program says of itself.
pub(crate) const MANUAL: Manual = Manual {
    name: "compare",
    arguments: " [--strict]",
    option: None,
    help: "\
Prints how the trees that two scripts leave differ, as far as is shown: a line for each node that came (+), went (-),
changed (~) or moved (>), with its fields. Both scripts are read from standard input, with a line `# ---` between them.
Refused updates are reported on standard error.

  --strict  end at the first refused update, with status 1

For example:
  (cat before.script; echo '# ---'; cat after.script) | bin/compare

Exit status: 0 if what is shown of both is equal, and 1 if it isn't; 2 for a bad line of a script, for an input without
that line, or for an argument; 3 if a stream failed; 4 if memory ran out.
",
};
